// A planner's answer and room, beside what the numbers of the streams say by themselves.
use crate::flow::least_bought;
use crate::lists::{Kind, List, TOP};
use crate::trouble::Trouble;
use judge::judge;
use plans::Done;
use std::alloc::Global;

// The mark of the boiler, as what gives. The trials' own, as all that they count by: a slip must not hide both here and in the planner.
const BOILER: u32 = 65535;

// What is found where all is as it should be: whether a largest flow says the same, where the streams are narrow enough for one, and whether some heat passes and some is bought.
#[derive(Clone, Copy)]
pub struct Found {
    pub beside_flow: bool,
    pub mixed: bool,
}

// Whether all numbers are the one that was there before; a line that worked cases have too.
pub fn untouched(room: &[u32], fill: u32) -> bool {
    room.iter().all(|number| *number == fill)
}

// What the boiler gives in these transfers.
fn boiler_sum(plan: &[u32]) -> u64 {
    plan.as_chunks::<3>()
        .0
        .iter()
        .filter(|[from, ..]| *from == BOILER)
        // no `sum`, which asks for a bound
        .fold(
            0u64,
            |sum, [_, _, heat]| sum.saturating_add(u64::from(*heat)),
        )
}

// Whether so much is lacking from some temperature up, so that no plan can do with less.
fn is_lacking(list: &List, amount: u64) -> bool {
    (0..=TOP).any(|temperature| {
        let given = list.heat_from(Kind::Hot, temperature);
        amount.saturating_add(given) == list.heat_from(Kind::Cold, temperature)
    })
}

// What a planner was given and what it answered; the room was full of one number before.
#[derive(Clone, Copy)]
pub struct Answer<'a> {
    pub list: &'a List,
    pub numbers: &'a [u32],
    pub done: Done,
    pub fill: u32,
}

impl Answer<'_> {
    // How many numbers of the room are the plan.
    pub fn words(self) -> u32 {
        match self.done {
            Done::Planned(transfers, _) => transfers.min(2000) as u32 * 3,
            Done::Refused(_) => 0,
        }
    }

    // Whether the plan in the room, which has so many transfers and is said to buy so much, is good by the judge and by sums of our own.
    fn check(self, room: &[u32], transfers: usize, bought: u64) -> Result<(), Trouble> {
        let Some((plan, rest)) = room.split_at_checked(transfers.saturating_mul(3)) else {
            return Err(Trouble::Wrong("there are more transfers than the room holds"));
        };
        if !untouched(rest, self.fill) {
            return Err(Trouble::Wrong("the room behind the plan is touched"));
        }
        judge(self.numbers, u64::from(self.list.gap), room, transfers)?;
        if boiler_sum(plan) != bought {
            return Err(Trouble::Wrong("the boiler gives another sum than is said"));
        }
        if !is_lacking(self.list, bought) {
            return Err(Trouble::Wrong("from no temperature up is as much lacking as is bought"));
        }
        Ok(())
    }

    // What is found of it and the room, with the largest flow where the streams are narrow enough for one.
    pub fn examine(self, heap: Global, room: &[u32]) -> Result<Found, Trouble> {
        let Done::Planned(transfers, bought) = self.done else {
            return Err(Trouble::Wrong("the streams are turned away"));
        };
        self.check(room, transfers as usize, bought)?;
        let least = least_bought(heap, self.list)?;
        if least.is_some_and(|least| least != bought) {
            return Err(Trouble::Wrong("the largest flow leaves another amount to be bought"));
        }
        Ok(Found {
            beside_flow: least.is_some(),
            mixed: 0 < bought && bought < self.list.heat_from(Kind::Cold, 0),
        })
    }
}
