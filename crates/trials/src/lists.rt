// Random lists of streams, by their shape. What tries the planner shares no code with it, so `Kind` and `Stream` are the trials' own.
use crate::random::Random;
use std::alloc::{AllocError, Global};
use std::fmt;

// No stream goes above this temperature with the gap, and nothing is counted there.
pub const TOP: u32 = 1000;

#[derive(Clone, Copy, PartialEq, Eq)]
pub enum Kind {
    Hot,
    Cold,
}

// One stream, in its own temperatures.
#[derive(Clone, Copy)]
pub struct Stream {
    pub kind: Kind,
    pub low: u32,
    pub high: u32,
    pub rate: u32,
}

// Streams and their gap.
#[derive(Drop)]
pub struct List {
    pub streams: Vec<Stream>,
    pub gap: u32,
}

// Where the streams lie.
#[derive(Clone, Copy)]
pub enum Place {
    Anywhere,
    // The cold ones begin at 0 at the lowest.
    Bottom,
    // The cold ones end where they just reach the top with the gap.
    Top,
}

// From so many to so many; the library's range from end to end is not copied.
#[derive(Clone, Copy)]
pub struct Span(pub u32, pub u32);

// How a list is made: how many streams, the gap, heat for each degree, how many degrees all streams of a kind lie within, and that every end is a multiple of so many degrees
// away from the lowest, so that ends touch; and whether all are of one kind.
#[derive(Clone, Copy)]
pub struct Shape {
    pub streams: Span,
    pub gap: Span,
    pub rate: Span,
    pub width: u32,
    pub grain: u32,
    pub only: Option<Kind>,
    pub place: Place,
}

impl Span {
    fn pick(self, random: &mut Random) -> u32 {
        random.between(self.0, self.1)
    }
}

impl Shape {
    // The lowest temperature of cold streams, where all end at `ceiling` or below.
    fn base(self, ceiling: u32, random: &mut Random) -> u32 {
        let highest = ceiling.saturating_sub(self.width);
        match self.place {
            Place::Anywhere => random.between(0, highest),
            Place::Bottom => 0,
            Place::Top => highest,
        }
    }

    // A stream between temperatures from the first of these up, none above the last.
    fn stream(self, kind: Kind, Span(base, ceiling): Span, random: &mut Random) -> Stream {
        let width = self.width.min(ceiling.saturating_sub(base));
        let steps = width / self.grain.max(1);
        let lower = random.between(0, steps.saturating_sub(1));
        let upper = random.between(lower.saturating_add(1), steps);
        Stream {
            kind,
            low: base.saturating_add(self.grain.saturating_mul(lower)),
            high: base.saturating_add(self.grain.saturating_mul(upper)),
            rate: self.rate.pick(random),
        }
    }

    fn kind(self, random: &mut Random) -> Kind {
        self.only.unwrap_or_else(|| match random.between(0, 1) {
            1 => Kind::Hot,
            _ => Kind::Cold,
        })
    }

    // A list of this shape. Hot streams lie above the cold ones by the gap, as far as they may.
    pub fn list(self, heap: Global, random: &mut Random) -> Result<List, AllocError> {
        let gap = self.gap.pick(random);
        let ceiling = TOP.saturating_sub(gap);
        let cold_base = self.base(ceiling, random);
        let hot_base = cold_base
            .saturating_add(gap)
            .min(ceiling.saturating_sub(self.width));
        let mut streams = Vec::new(heap);
        for _ in 0..self.streams.pick(random) {
            let kind = self.kind(random);
            let base = match kind {
                Kind::Hot => hot_base,
                Kind::Cold => cold_base,
            };
            streams.push(self.stream(kind, Span(base, ceiling), random))?;
        }
        Ok(List { streams, gap })
    }
}

impl Stream {
    // Its heat from a temperature up, as if it were warmer by the shift.
    fn heat_from(self, shift: u32, temperature: u32) -> u64 {
        let high = self.high.saturating_add(shift);
        let low = self.low.saturating_add(shift).max(temperature);
        u64::from(high.saturating_sub(low)) * u64::from(self.rate)
    }
}

impl From<Stream> for [u32; 4] {
    fn from(s: Stream) -> [u32; 4] {
        let mark = match s.kind {
            Kind::Hot => 1,
            Kind::Cold => 0,
        };
        [mark, s.low, s.high, s.rate]
    }
}

// A stream as the program reads it.
impl fmt::Display for Stream {
    fn fmt<W: fmt::Write>(&self, f: &mut fmt::Formatter<W>) -> fmt::Result {
        match self.kind {
            Kind::Hot => write!(f, "hot {} {} {}", self.high, self.low, self.rate),
            Kind::Cold => write!(f, "cold {} {} {}", self.low, self.high, self.rate),
        }
    }
}

impl List {
    // Four numbers for each stream, as the planner and the judge take them.
    pub fn numbers(&self, heap: Global) -> Result<Vec<u32>, AllocError> {
        self.streams
            .iter()
            .flat_map(|s| <[u32; 4]>::from(*s))
            .collect(heap)
    }

    // The heat of all streams of a kind from a temperature up, where cold ones count as warmer by the gap.
    pub fn heat_from(&self, kind: Kind, temperature: u32) -> u64 {
        let shift = match kind {
            Kind::Hot => 0,
            Kind::Cold => self.gap,
        };
        self.streams
            .iter()
            .filter(|s| s.kind == kind)
            .map(|s| s.heat_from(shift, temperature))
            // no `sum`, which asks for a bound
            .fold(0u64, |sum, heat| sum.saturating_add(heat))
    }
}

// A list as the program reads it.
impl fmt::Display for List {
    fn fmt<W: fmt::Write>(&self, f: &mut fmt::Formatter<W>) -> fmt::Result {
        for s in &self.streams {
            writeln!(f, "{s}")?;
        }
        write!(f, "gap {}", self.gap)
    }
}
