// The verdict on a plan that stands in a room.
ghost use Rattle.judge.specs.Verdicts.{Judged, Just};

use crate::case::Case;
use crate::flaws::Flaw;

// Whether so many transfers at the front of the room are a plan for these streams and this gap, or what is wrong first.
pub fn judge(streams: &[u32], gap: u64, room: &[u32], transfers: usize) -> Result<(), Flaw>
    ensures judged { Judged streams.now gap room.now transfers result }
    ensures just { Just streams.now gap room.now transfers result }
{
    let case = Case::of(streams, gap, room, transfers)?;
    case.check_order()?;
    case.check_balance()
}
