// Targets: the least heat that has to be bought, what then goes to the river, and the degree across which nothing may pass.
#![tactic(auto)]

mod cascade;

ghost use Rattle.streams.specs.Checked.{listed};
ghost use Rattle.streams.specs.Loaded.{supply_in, demand_in};
ghost use Rattle.targets.specs.Found.{Found, FoundOf};

use cascade::Descent;
use streams::{Loads, StreamTable};

// What the cheapest plan buys and what it sends to the river, and the lowest degree from which as much is lacking as has to be bought.
#[derive(Clone, Copy, Debug, PartialEq, Eq)]
pub struct Targets {
    pub heating: u64,
    pub cooling: u64,
    pub pinch: Option<usize>,
}

impl Targets {
    // Goes down from the warmest degree, both arrays side by side, with what is lacking from there up.
    pub fn of(loads: &Loads) -> Targets
        ensures { Found (supply_in loads.now) (demand_in loads.now) result }
    {
        let mut so_far = Descent::default();
        // The degree comes with one side: counted behind both, the planner takes half as long again for one stream.
        let supply = loads.supply.iter().enumerate().rev();
        for ((degree, give), take) in supply.zip(loads.demand.iter().rev()) {
            so_far = so_far.lower(degree, *give, *take);
        }
        Targets {
            heating: so_far.most,
            cooling: so_far.supply + so_far.most - so_far.demand,
            pinch: so_far.pinch,
        }
    }

    // The same for streams that were checked.
    pub fn of_streams(table: &StreamTable) -> Targets
        ensures { FoundOf table.now.gap (listed table.now) result }
    {
        Targets::of(&table.loads())
    }
}
