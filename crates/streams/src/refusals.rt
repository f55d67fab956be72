// Why numbers or a text are turned away: a case for each rule, with its place, counted from 0.
ghost use Rattle.std.specs.Prelude.{◌≡◌};
ghost use Rattle.streams.specs.Refusals.{number_of, place_of};

#[derive(Clone, Copy, Debug, PartialEq, Eq)]
pub enum Refusal {
    // So many numbers, which aren't four for each stream.
    NotInFours(usize),
    // So many numbers, of more than 64 streams.
    TooManyStreams(usize),
    // The gap is above 1,000.
    GapTooWide,
    // This stream's mark is neither 1, hot, nor 0, cold.
    UnknownKind(usize),
    // This stream's low isn't below its high.
    LowNotBelowHigh(usize),
    // This stream's high is above 1,000 with the gap.
    TooWarm(usize),
    // This stream's heat for each degree isn't 1 to 1,000,000.
    RateOutOfRange(usize),
    // The room has so many numbers, less than 6,000.
    RoomTooSmall(usize),
    // This line of a text can't be read.
    Unreadable(usize),
}

impl Refusal {
    // The number by which callers know the rule: it is printed, and callers in other languages get no more.
    pub fn number(self) -> u64
        ensures { result ≡ number_of self }
    {
        match self {
            Refusal::NotInFours(_) | Refusal::TooManyStreams(_) => 1,
            Refusal::GapTooWide
            | Refusal::UnknownKind(_)
            | Refusal::LowNotBelowHigh(_)
            | Refusal::TooWarm(_)
            | Refusal::RateOutOfRange(_) => 2,
            Refusal::RoomTooSmall(_) => 3,
            Refusal::Unreadable(_) => 4,
        }
    }

    // Where: how many numbers there are, which stream, or which line; 0 for the gap, which has no place and is printed so.
    pub fn place(self) -> usize
        ensures { result ≡ place_of self }
    {
        match self {
            Refusal::GapTooWide => 0,
            Refusal::NotInFours(place)
            | Refusal::TooManyStreams(place)
            | Refusal::UnknownKind(place)
            | Refusal::LowNotBelowHigh(place)
            | Refusal::TooWarm(place)
            | Refusal::RateOutOfRange(place)
            | Refusal::RoomTooSmall(place)
            | Refusal::Unreadable(place) => place,
        }
    }
}
