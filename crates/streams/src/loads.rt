// What streams give and take in each degree, by value.
ghost use Rattle.std.specs.Prelude.{ℕ, ◌<◌, ◌≤◌, slice_index};

use crate::model::DEGREES;

// Heat by degree: what hot streams give, and what cold streams take, counted as warmer by the gap. No degree has more than 64 streams of a million.
// Two arrays and not one of pairs: who sums goes over one side alone, and who goes down the degrees over both side by side.
#[derive(Clone, Copy)]
pub struct Loads {
    pub supply: [u64; DEGREES],
    pub demand: [u64; DEGREES],
    ghost supply_few: { (d : ℕ) → d < 1000 → slice_index supply d ≤ 64000000 },
    ghost demand_few: { (d : ℕ) → d < 1000 → slice_index demand d ≤ 64000000 },
}
