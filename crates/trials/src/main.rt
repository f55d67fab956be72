// Trials: random lists of streams, for which the planner's answer stands beside the judge, sums in the streams' own temperatures and a largest flow. It prints how many there
// were, and fails at the first difference with the streams that show it.
#![tactic(auto)]

mod broken;
mod examine;
mod families;
mod flow;
mod lists;
mod random;
mod trouble;

use crate::broken::Broken;
use crate::examine::{Answer, Found, untouched};
use crate::families::FAMILIES;
use crate::lists::{List, Shape};
use crate::random::Random;
use crate::trouble::Trouble;
use plans::{Done, plan};
use std::alloc::Global;

// So many lists of each family.
const LISTS: usize = 1000;

const SEED: u64 = 20;

// The least room that the planner takes, a number of the trials' own, and the most that it is given here.
const LEAST_ROOM: usize = 6000;

const MOST_ROOM: usize = 6030;

// How many lists had a largest flow beside them, and in how many some heat passes and some is bought.
#[derive(Clone, Copy, Default)]
struct Counts {
    flows: usize,
    mixed: usize,
}

impl Counts {
    fn add(&mut self, found: Found) {
        self.flows = self.flows.saturating_add(usize::from(found.beside_flow));
        self.mixed = self.mixed.saturating_add(usize::from(found.mixed));
    }
}

// What all trials draw on.
#[derive(Clone, Copy)]
struct Trials {
    heap: Global,
    random: Random,
}

impl Trials {
    // The planner's answer for a list is examined, and again with one number of the room changed.
    fn try_plan(&mut self, list: &List) -> Result<Found, Trouble> {
        let numbers = list.numbers(self.heap)?;
        let fill = self.random.between(0, u32::MAX);
        let mut free = [fill; MOST_ROOM];
        let length = self.random.between(LEAST_ROOM as u32, MOST_ROOM as u32);
        let room = &mut free[..length as usize];
        let done = plan(numbers.as_slice(), u64::from(list.gap), room);
        let answer = Answer {
            list,
            numbers: numbers.as_slice(),
            done,
            fill,
        };
        let found = answer.examine(self.heap, room)?;
        if let Some(number) = room.get_mut(self.random.between(0, answer.words()) as usize) {
            *number = number.wrapping_add(self.random.between(1, 9));
        }
        match answer.examine(self.heap, room) {
            Err(Trouble::NoMemory) => Err(Trouble::NoMemory),
            Err(_) => Ok(found),
            Ok(_) => Err(Trouble::Wrong("a number of the room is changed, and all is found good")),
        }
    }

    // The list, made to break one rule, is turned away by its number, and nothing changed.
    fn try_broken(&mut self, list: &List) -> Result<(), Trouble> {
        let broken = Broken::by_chance(self.heap, list, &mut self.random)?;
        let fill = self.random.between(0, u32::MAX);
        let mut free = [fill; MOST_ROOM];
        let room = &mut free[..broken.room.min(MOST_ROOM)];
        match plan(broken.numbers.as_slice(), broken.gap, room) {
            Done::Refused(number) if number == broken.rule.number() && untouched(room, fill) => {
                Ok(())
            }
            _ => Err(Trouble::Wrong(
                "made to break a rule, the list is not turned away by its number, or the room is touched",
            )),
        }
    }

    fn try_list(&mut self, list: &List) -> Result<Found, Trouble> {
        let found = self.try_plan(list)?;
        self.try_broken(list)?;
        Ok(found)
    }

    // So many lists of one shape. The streams that show a difference are printed.
    fn try_family(&mut self, rt: &HostRuntime, shape: Shape) -> anyhow::Result<Counts> {
        let mut counts = Counts::default();
        for _ in 0..LISTS {
            let list = shape.list(self.heap, &mut self.random)?;
            match self.try_list(&list) {
                Ok(found) => counts.add(found),
                Err(Trouble::NoMemory) => return Err(Trouble::NoMemory.into()),
                Err(trouble) => {
                    println!(rt; "{list}")?;
                    return Err(trouble.into());
                }
            }
        }
        Ok(counts)
    }
}

fn run(rt: &HostRuntime) -> anyhow::Result<()> {
    let mut trials = Trials {
        heap: rt.alloc(),
        random: Random(SEED),
    };
    for (name, shape) in &FAMILIES {
        let Counts { flows, mixed } = trials.try_family(rt, *shape)?;
        println!(rt;
            "{name}: {LISTS} lists, {flows} beside a largest flow, {mixed} pass some heat and buy some"
        )?;
    }
    Ok(())
}

fn main(rt: HostRuntime) -> anyhow::Result<()> {
    run(&rt)
}
