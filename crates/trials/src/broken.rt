// Sound lists that are made to break one rule.
use crate::LEAST_ROOM;
use crate::lists::{List, Stream, TOP};
use crate::random::Random;
use std::alloc::{AllocError, Global};

// What is broken.
#[derive(Clone, Copy, Debug, PartialEq, Eq)]
pub enum Rule {
    NotInFours,
    TooManyStreams,
    GapTooWide,
    UnknownKind,
    NoWidth,
    TooWarm,
    NoHeat,
    TooMuchHeat,
    RoomTooSmall,
}

const RULES: [Rule; 9] = [
    Rule::NotInFours,
    Rule::TooManyStreams,
    Rule::GapTooWide,
    Rule::UnknownKind,
    Rule::NoWidth,
    Rule::TooWarm,
    Rule::NoHeat,
    Rule::TooMuchHeat,
    Rule::RoomTooSmall,
];

// What the planner is given, and the rule that it breaks.
#[derive(Drop)]
pub struct Broken {
    pub numbers: Vec<u32>,
    pub gap: u64,
    pub room: usize,
    pub rule: Rule,
}

impl Rule {
    fn pick(random: &mut Random) -> Rule {
        RULES[random.next() as usize % RULES.len()]
    }

    // The number by which the planner is to turn away what breaks it.
    pub fn number(self) -> u64 {
        match self {
            Rule::NotInFours | Rule::TooManyStreams => 1,
            Rule::GapTooWide
            | Rule::UnknownKind
            | Rule::NoWidth
            | Rule::TooWarm
            | Rule::NoHeat
            | Rule::TooMuchHeat => 2,
            Rule::RoomTooSmall => 3,
        }
    }
}

impl Broken {
    // The stream at this place has other numbers.
    fn set(&mut self, i: usize, numbers: [u32; 4]) {
        let (fours, _) = self.numbers.as_mut_slice().as_chunks_mut::<4>();
        if let Some(four) = fours.get_mut(i) {
            *four = numbers;
        }
    }

    // Breaks the rule, at this stream if it is one of a stream. A match, since each rule breaks another part: a closure for each would say no more.
    fn apply(&mut self, i: usize, s: Stream, gap: u32) -> Result<(), AllocError> {
        let [mark, low, high, rate] = <[u32; 4]>::from(s);
        match self.rule {
            Rule::NotInFours => {
                let _ = self.numbers.pop();
            }
            // more than are taken, all of them sound
            Rule::TooManyStreams => {
                self.numbers
                    .extend_from_slice([[1, 0, 1, 1]; 64].as_flattened())?;
            }
            Rule::GapTooWide => self.gap = u64::from(TOP) + 1,
            Rule::UnknownKind => self.set(i, [2, low, high, rate]),
            Rule::NoWidth => self.set(i, [mark, low, low, rate]),
            Rule::TooWarm => self.set(i, [mark, low, (TOP + 1).saturating_sub(gap), rate]),
            Rule::NoHeat => self.set(i, [mark, low, high, 0]),
            Rule::TooMuchHeat => self.set(i, [mark, low, high, 1_000_001]),
            Rule::RoomTooSmall => self.room = LEAST_ROOM - 1,
        }
        Ok(())
    }

    // The list with one rule broken, and the stream at which it is, by chance.
    pub fn by_chance(heap: Global, list: &List, random: &mut Random) -> Result<Broken, AllocError> {
        let numbers = list.numbers(heap)?;
        let i = random.next() as usize % list.streams.len().max(1);
        let mut broken = Broken {
            numbers,
            gap: u64::from(list.gap),
            room: LEAST_ROOM,
            rule: Rule::pick(random),
        };
        if let Some(s) = list.streams.get(i) {
            broken.apply(i, *s, list.gap)?;
        }
        Ok(broken)
    }
}
