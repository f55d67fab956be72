// The heat cascade, one degree after the other from above.
ghost use Rattle.std.specs.Prelude.{◌≡◌, ◌+◌, ◌^◌, ◌<◌};
ghost use Rattle.targets.specs.Cascade.{lowered};

// What hot streams give and cold ones take from a degree up, the most that is lacking from any degree that was passed, and the lowest where it is.
#[derive(Clone, Copy, Default)]
pub(crate) struct Descent {
    pub(crate) supply: u64,
    pub(crate) demand: u64,
    pub(crate) most: u64,
    pub(crate) pinch: Option<usize>,
}

impl Descent {
    // Down to this degree, in which so much is given and taken.
    pub(crate) fn lower(self, degree: usize, give: u64, take: u64) -> Descent
        requires supply_fits { self.supply + give < 2 ^ 64 }
        requires demand_fits { self.demand + take < 2 ^ 64 }
        ensures { result ≡ lowered self degree give take }
    {
        let supply = self.supply + give;
        let demand = self.demand + take;
        let lacking = demand.saturating_sub(supply);
        let (most, pinch) = if lacking >= self.most.max(1) {
            (lacking, Some(degree))
        } else {
            (self.most, self.pinch)
        };
        Descent {
            supply,
            demand,
            most,
            pinch,
        }
    }
}
