// What a text asks, as it is read so far.
ghost use Rattle.std.specs.Prelude.{◌≡◌, unwrap_or, slice_index_or};
ghost use Rattle.text.specs.Asked.{asked_by, nothing_asked, line_of, Noted};

use crate::turned::Turned;
use grammar::{LineFault, Statement};
use std::alloc::Global;
use streams::{MOST_STREAMS, Refusal};

// The gap that a line gives, with the place of the line.
#[derive(Clone, Copy)]
pub(crate) struct Said {
    pub(crate) what: u32,
    pub(crate) place: usize,
}

// The streams in the order of their lines, each as four numbers; the places of those lines, in a list of their own, so that the planner can be lent the numbers as they stand;
// the gap, if a line gave it; and whether the plan is wished for.
#[derive(Drop)]
pub(crate) struct Problem {
    pub(crate) streams: Vec<[u32; 4]>,
    pub(crate) places: Vec<usize>,
    pub(crate) gap: Option<Said>,
    pub(crate) plan: bool,
}

impl Problem {
    // Nothing is asked yet.
    pub(crate) fn new(heap: Global) -> Problem
        ensures { asked_by result ≡ nothing_asked }
    {
        Problem {
            streams: Vec::new(heap),
            places: Vec::new(heap),
            gap: None,
            plan: false,
        }
    }

    // What the line at this place says is asked too, unless it was before.
    pub(crate) fn note(
        &mut self,
        said: Option<Statement>,
        place: usize,
    ) -> Result<(), Turned<'static>>
        ensures { Noted self.old said place result self.new }
    {
        match said {
            None => {}
            Some(Statement::Stream(stream)) => {
                self.streams.push(stream.into())?;
                self.places.push(place)?;
            }
            Some(Statement::Gap(gap)) => {
                if self.gap.is_some() {
                    return Err(Turned::Unreadable {
                        place,
                        fault: LineFault::SecondGap,
                    });
                }
                self.gap = Some(Said { what: gap, place });
            }
            Some(Statement::Plan) => {
                if self.plan {
                    return Err(Turned::Unreadable {
                        place,
                        fault: LineFault::SecondPlan,
                    });
                }
                self.plan = true;
            }
        }
        Ok(())
    }

    // The streams as the planner takes them, all their numbers in one list.
    pub(crate) fn numbers(&self) -> &[u32]
        ensures { result.now ≡ (asked_by self.now).numbers }
    {
        self.streams.as_flattened()
    }

    // The gap, which is 0 where no line gave it.
    pub(crate) fn gap(&self) -> u64
        ensures { result ≡ unwrap_or (asked_by self.now).gap 0 }
    {
        self.gap.map_or(0, |line| u64::from(line.what))
    }

    // The place of the line that a refusal speaks of. Four of them never come of a text: it gives whole
    // fours, marks of kinds, room enough and lines that were read.
    pub(crate) fn place_of(&self, refusal: Refusal) -> usize
        ensures { result ≡ line_of (asked_by self.now) refusal }
    {
        match refusal {
            Refusal::GapTooWide => self.gap.map_or(0, |line| line.place),
            Refusal::TooManyStreams(_) => self.place_of_stream(MOST_STREAMS),
            Refusal::NotInFours(i)
            | Refusal::UnknownKind(i)
            | Refusal::LowNotBelowHigh(i)
            | Refusal::TooWarm(i)
            | Refusal::RateOutOfRange(i)
            | Refusal::RoomTooSmall(i)
            | Refusal::Unreadable(i) => self.place_of_stream(i),
        }
    }

    // The place of a stream's line, or 0 where there is no such stream.
    fn place_of_stream(&self, i: usize) -> usize
        ensures { result ≡ slice_index_or (asked_by self.now).stream_lines i 0 }
    {
        self.places.get(i).copied().unwrap_or(0)
    }
}
