// What is judged.
ghost use Rattle.std.specs.Prelude.{◌≡◌, ◌^◌, ◌≤◌, length, IfOk, IfErr};
ghost use Rattle.streams.specs.Rules.{streams_in};
ghost use Rattle.judge.specs.declared.flaws.Flaw.TheVariants.{Unfit};
ghost use Rattle.judge.specs.Verdicts.{advised, Fit};
ghost use Rattle.judge.specs.Pieces.{streams_of, transfers_of};

use crate::flaws::Flaw;

// The judge has constants of its own, here and in `order`: a slip must not hide both in them and in the planner's.
const MOST_STREAMS: usize = 64;

// The streams' numbers in fours, the gap, and the transfers' numbers in threes.
#[derive(Clone, Copy)]
pub(crate) struct Case<'a> {
    pub(crate) streams: &'a [[u32; 4]],
    pub(crate) gap: u64,
    pub(crate) plan: &'a [[u32; 3]],
    ghost few: { length streams.now ≤ 64 },
    ghost addressed: { length plan.now ≤ 2 ^ 64 },
}

impl<'a> Case<'a> {
    // What is judged, if these are numbers in fours, of no more than 64 streams, and a room that has so many transfers.
    pub(crate) fn of(
        streams: &'a [u32],
        gap: u64,
        room: &'a [u32],
        transfers: usize,
    ) -> Result<Case<'a>, Flaw>
        ensures fit { IfOk result (λ _. Fit streams.now room.now transfers) }
        ensures streams { IfOk result (λ c. streams_of c.streams.now ≡ streams_in streams.now) }
        ensures gap { IfOk result (λ c. c.gap ≡ gap) }
        ensures plan { IfOk result (λ c. transfers_of c.plan.now ≡ advised room.now transfers) }
        ensures unfit { IfErr result (λ e. (e ≡ Unfit) × (Fit streams.now room.now transfers → ⊥)) }
    {
        let (streams, []) = streams.as_chunks::<4>() else {
            return Err(Flaw::Unfit);
        };
        if streams.len() > MOST_STREAMS {
            return Err(Flaw::Unfit);
        }
        let plan = room.as_chunks::<3>().0.get(..transfers).ok_or(Flaw::Unfit)?;
        Ok(Case { streams, gap, plan })
    }
}
