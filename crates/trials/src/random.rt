// Numbers that look random and are the same in every run.
ghost use Rattle.std.specs.Prelude.{◌≤◌, max};

// A state that is stepped by an odd number and then mixed (SplitMix64).
#[derive(Clone, Copy)]
pub struct Random(pub u64);

impl Random {
    pub fn next(&mut self) -> u64 {
        self.0 = self.0.wrapping_add(0x9e37_79b9_7f4a_7c15);
        let mut mixed = self.0;
        mixed = (mixed ^ (mixed >> 30)).wrapping_mul(0xbf58_476d_1ce4_e5b9);
        mixed = (mixed ^ (mixed >> 27)).wrapping_mul(0x94d0_49bb_1331_11eb);
        mixed ^ (mixed >> 31)
    }

    // One of low to high, or low where high is below it.
    pub fn between(&mut self, low: u32, high: u32) -> u32
        ensures { (low ≤ result) × (result ≤ max low high) }
    {
        let more = high.saturating_sub(low);
        let some = self.next() % (u64::from(more) + 1);
        low + some as u32
    }
}
