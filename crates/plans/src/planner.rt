// The planner.
//
// All heat is laid along one line. On one side stands what gives it: the boiler, then the degrees from the warmest down. On the other side stands
// what takes it: the degrees from the warmest down. Where the two sides touch, that much passes. What is given beyond the end of what is taken goes
// to the river.
ghost use Rattle.std.specs.Prelude.{◌≡◌, ◌+◌, ◌*◌, ◌≤◌, length};
ghost use Rattle.streams.specs.Heat.{sum_from};
ghost use Rattle.streams.specs.Loaded.{supply_in, demand_in};
ghost use Rattle.targets.specs.Deficits.{target};
ghost use Rattle.plans.specs.Pieces.{Roomy, Rejected, Served};
ghost use Rattle.plans.specs.Promise.{LaidOut};

use crate::transfers::{OUTSIDE, Transfer, Writer, mark_of};
use streams::{DEGREES, Loads};

// What each degree gives and takes, with the heat that has to be bought for it at least. The clauses name the three one by one, since the definitions
// speak of functions of the degree, and so do the theorems.
#[derive(Clone, Copy)]
pub(crate) struct Planner<'a> {
    pub(crate) loads: &'a Loads,
    pub(crate) heating: u64,
    ghost least: { heating ≡ target 1000 (supply_in loads.now) (demand_in loads.now) },
}

impl Planner<'_> {
    // All that is taken.
    fn total_demand(&self) -> u64
        ensures value { result ≡ sum_from 1000 0 (demand_in self.now.loads.now) }
        ensures few { result ≤ 64000000000 }
    {
        self.loads.demand.iter().sum()
    }

    // Gives the river what lies beyond all that is taken.
    fn reject(&self, writer: &mut Writer)
        requires { 3 * writer.old.count + 3000 ≤ length writer.old.room.now }
        ensures { Rejected (supply_in self.now.loads.now) self.now.heating (sum_from 1000 0 (demand_in self.now.loads.now)) writer.old writer.new }
    {
        let wanted = self.total_demand();
        let mut given = self.heating;
        for (d, &supply) in self.loads.supply.iter().enumerate().rev() {
            given += supply;
            let spare = supply.min(given.saturating_sub(wanted));
            writer.add(Transfer {
                from: d as u32,
                to: OUTSIDE,
                heat: spare as u32,
            });
        }
    }

    // Serves all that is taken, from the boiler as long as it lasts, and then from the warmest degree down.
    fn serve(&self, writer: &mut Writer)
        requires { Roomy (supply_in self.now.loads.now) (demand_in self.now.loads.now) self.now.heating writer.old }
        ensures { Served (supply_in self.now.loads.now) (demand_in self.now.loads.now) self.now.heating writer.old writer.new }
    {
        // Two sides are merged, each with a place of its own that goes down. The places are numbers, since transfers name them; two iterators would
        // bring two ends that never come, and a loop within a loop would part what is one turn: a transfer, which ends the heat of one side.
        let mut from = DEGREES;
        let mut hot = self.heating;
        let mut to = DEGREES - 1;
        let mut cold = self.loads.demand[to];
        loop {
            let heat = hot.min(cold);
            writer.add(Transfer {
                from: mark_of(from),
                to: to as u32,
                heat: heat as u32,
            });
            hot -= heat;
            cold -= heat;
            if cold > 0 {
                from -= 1;
                hot = self.loads.supply[from];
            } else if to > 0 {
                to -= 1;
                cold = self.loads.demand[to];
            } else {
                return;
            }
        }
    }

    // Writes a cheapest plan, and says how many transfers it has.
    pub(crate) fn lay_out(&self, room: &mut [u32]) -> usize
        requires { 6000 ≤ length room.old }
        ensures { LaidOut (supply_in self.now.loads.now) (demand_in self.now.loads.now) self.now.heating result room.old room.new }
    {
        let mut writer = Writer::new(room);
        self.reject(&mut writer);
        self.serve(&mut writer);
        writer.count
    }
}
