// The planner for callers in other languages: one function on numbers and slices, which asks nothing of them beyond their types.
#![tactic(auto)]

ghost use Rattle.std.specs.Prelude.{◌≡◌};
ghost use Rattle.exports.specs.Outcomes.{Promised, outcome_of};

use plans::{Done, plan};

// The refusal's number, or 0 and how many transfers the plan has and what it buys: three numbers, since C, which calls it, has no enum with values.
#[repr(C)]
#[derive(Clone, Copy, Debug, PartialEq, Eq)]
pub struct Outcome {
    pub refusal: u64,
    pub transfers: u64,
    pub bought: u64,
}

impl From<Done> for Outcome {
    ghost from_gives = { λ done outcome. outcome ≡ outcome_of done };

    fn from(done: Done) -> Outcome {
        match done {
            Done::Planned(transfers, bought) => Outcome {
                refusal: 0,
                transfers,
                bought,
            },
            Done::Refused(refusal) => Outcome {
                refusal,
                transfers: 0,
                bought: 0,
            },
        }
    }
}

// Writes a cheapest plan into the room. A slice is passed as a pointer and then a length.
#[unsafe(no_mangle)]
pub extern "C" fn wethumbal_plan(streams: &[u32], gap: u64, room: &mut [u32]) -> Outcome
    ensures { Promised streams.now gap room.old result room.new }
{
    plan(streams, gap, room).into()
}
