// Supply and demand, summed over the streams of a table.
ghost use Rattle.std.specs.Prelude.{◌≡◌, ℕ, ◌+◌, ◌^◌, ◌<◌, if◌then◌else◌, slice_index};
ghost use Rattle.streams.specs.Heat.{within};
ghost use Rattle.streams.specs.Rules.{Sound};
ghost use Rattle.streams.specs.Checked.{listed};
ghost use Rattle.streams.specs.Loaded.{Loaded};

use crate::loads::Loads;
use crate::model::{DEGREES, Kind, Stream};
use crate::table::StreamTable;
use std::ops::Range;

// The degrees of a stream, from its low one up to below its high one, counted as warmer by the shift.
fn degrees(s: Stream, shift: u32) -> Range<usize>
    requires { Sound shift s }
    ensures from_low { result.start ≡ s.low + shift }
    ensures to_high { result.end ≡ s.high + shift }
{
    (s.low + shift) as usize..(s.high + shift) as usize
}

// Adds a stream's heat to each of its degrees.
#[tactic(auto, using(crate::proofs::Raising::raised_part))]
fn add_stream(sums: &mut [u64; DEGREES], s: Stream, shift: u32)
    requires sound { Sound shift s }
    requires fits { (d : ℕ) → d < 1000 → slice_index sums.old d + s.rate < 2 ^ 64 }
    ensures { (d : ℕ) → d < 1000 → slice_index sums.new d ≡ slice_index sums.old d + (if within (s.low + shift) (s.high + shift) d then s.rate else 0) }
{
    for sum in &mut sums[degrees(s, shift)] {
        *sum += u64::from(s.rate);
    }
}

impl StreamTable {
    // The streams in the order of their numbers.
    pub fn streams(&self) -> &[Stream]
        ensures { result.now ≡ listed self.now }
    {
        &self.streams[..self.count]
    }

    // What they give and take in each degree.
    pub fn loads(&self) -> Loads
        ensures { Loaded self.now result }
    {
        let mut supply = [0; DEGREES];
        let mut demand = [0; DEGREES];
        for s in self.streams() {
            match s.kind {
                Kind::Hot => add_stream(&mut supply, *s, 0),
                Kind::Cold => add_stream(&mut demand, *s, self.gap),
            }
        }
        Loads { supply, demand }
    }
}
