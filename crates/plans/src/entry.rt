// The entry: any numbers, any gap and any room are planned for, or turned away by the first rule that applies.
ghost use Rattle.std.specs.Prelude.{◌≡◌};
ghost use Rattle.plans.specs.Promise.{Answers, Promise, done_of};

use crate::planner::Planner;
use streams::{Refusal, check_with_room};
use targets::Targets;

// A plan that stands in the room: how many transfers it has, and the targets that it meets.
#[derive(Clone, Copy, Debug, PartialEq, Eq)]
pub struct Written {
    pub transfers: usize,
    pub targets: Targets,
}

// What is answered: how many transfers and what is bought, or the refusal's number. Bare numbers, since the entry is fixed for its callers, and an answer of it is made into one for other languages.
#[derive(Clone, Copy, Debug, PartialEq, Eq)]
pub enum Done {
    Planned(u64, u64),
    Refused(u64),
}

impl From<Result<Written, Refusal>> for Done {
    ghost from_gives = { λ answer done. done ≡ done_of answer };

    fn from(answer: Result<Written, Refusal>) -> Done {
        match answer {
            Ok(written) => Done::Planned(written.transfers as u64, written.targets.heating),
            Err(refusal) => Done::Refused(refusal.number()),
        }
    }
}

// Writes a cheapest plan for these streams into the room, or says which rule applies, and where.
pub fn write_plan(streams: &[u32], gap: u64, room: &mut [u32]) -> Result<Written, Refusal>
    ensures { Answers streams.now gap room.old result room.new }
{
    let table = check_with_room(streams, gap, room)?;
    let loads = table.loads();
    let targets = Targets::of(&loads);
    let planner = Planner {
        loads: &loads,
        heating: targets.heating,
    };
    let transfers = planner.lay_out(room);
    Ok(Written { transfers, targets })
}

// The same for callers that know refusals by their numbers.
pub fn plan(streams: &[u32], gap: u64, room: &mut [u32]) -> Done
    ensures { Promise streams.now gap room.old result room.new }
{
    write_plan(streams, gap, room).into()
}
