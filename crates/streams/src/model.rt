// Degrees, and a stream by value.
ghost use Rattle.std.specs.Prelude.{◌≡◌};
ghost use Rattle.streams.specs.Numbers.{mark_of, Marks, numbers_of};

// Degrees are 0 to 999: degree d lies between the temperatures d and d + 1.
pub const DEGREES: usize = 1000;

// There are at most 64 streams.
pub const MOST_STREAMS: usize = 64;

// A hot stream is cooled and gives heat; a cold one is warmed and takes it.
#[derive(Clone, Copy, Debug, PartialEq, Eq)]
pub enum Kind {
    Hot,
    Cold,
}

// A mark that stands for no kind.
#[derive(Clone, Copy, Debug, PartialEq, Eq)]
pub struct UnknownMark(pub u32);

// The mark 1 stands for hot, and 0 for cold.
impl TryFrom<u32> for Kind {
    type Error = UnknownMark;

    ghost try_from_gives = { Marks };

    fn try_from(mark: u32) -> Result<Self, UnknownMark> {
        match mark {
            0 => Ok(Kind::Cold),
            1 => Ok(Kind::Hot),
            _ => Err(UnknownMark(mark)),
        }
    }
}

impl From<Kind> for u32 {
    ghost from_gives = { λ kind mark. mark ≡ mark_of kind };

    fn from(kind: Kind) -> u32 {
        match kind {
            Kind::Hot => 1,
            Kind::Cold => 0,
        }
    }
}

// A stream between two temperatures, with so much heat for each degree between them.
#[derive(Clone, Copy, Debug, PartialEq, Eq)]
pub struct Stream {
    pub kind: Kind,
    pub low: u32,
    pub high: u32,
    pub rate: u32,
}

// A stream in numbers: its mark, low, high, heat for each degree.
impl From<Stream> for [u32; 4] {
    ghost from_gives = { λ s numbers. numbers ≡ numbers_of s };

    fn from(s: Stream) -> [u32; 4] {
        [s.kind.into(), s.low, s.high, s.rate]
    }
}
