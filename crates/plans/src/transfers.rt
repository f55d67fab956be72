// Transfers, as they stand in the room: in threes, from, to and how much.
ghost use Rattle.std.specs.Prelude.{◌≡◌, ◌+◌, ◌*◌, ◌≤◌, ◌++◌, length, drop};
ghost use Rattle.plans.specs.Transfers.{mark, words};
ghost use Rattle.plans.specs.Pieces.{some, Added};

use streams::DEGREES;

// The mark of the boiler, as what gives, and of the river, as what takes.
pub const OUTSIDE: u32 = 65535;

// From and to are degrees or the mark: plain numbers, since they stand so in the room, which callers in other languages read.
#[derive(Clone, Copy, Debug, PartialEq, Eq)]
pub struct Transfer {
    pub from: u32,
    pub to: u32,
    pub heat: u32,
}

// Writes a transfer at the front of what is free: number by number, since with the three copied from an array the planner takes, as measured, half
// as long again.
fn put(free: &mut [u32], t: Transfer)
    requires { 3 ≤ length free.old }
    ensures { free.new ≡ words t ++ drop 3 free.old }
{
    free[0] = t.from;
    free[1] = t.to;
    free[2] = t.heat;
}

// Writes transfers one behind the other, from the front of a room: the caller lends it, and nothing is allocated, so the count stands beside it.
#[derive(Drop)]
pub(crate) struct Writer<'a> {
    room: &'a mut [u32],
    pub(crate) count: usize,
}

impl<'a> Writer<'a> {
    // Nothing is written yet.
    pub(crate) fn new(room: &'a mut [u32]) -> Writer<'a>
        ensures same_room { result.room.ghost_name ≡ room.entry.ghost_name }
        ensures as_it_was { result.room.now ≡ room.old }
        ensures count { result.count ≡ 0 }
    {
        Writer { room, count: 0 }
    }

    // Adds a transfer, unless it is of nothing.
    pub(crate) fn add(&mut self, t: Transfer)
        requires { 3 * self.old.count + 3 ≤ length self.old.room.now }
        ensures { Added self.old self.new (some t) }
    {
        if t.heat == 0 {
            return;
        }
        let k = 3 * self.count;
        put(&mut self.room[k..], t);
        self.count += 1;
    }
}

// The mark of a place that gives: a degree, or the boiler, which stands above them all. On the way down it is 1,000, from which the next step is the
// warmest degree.
#[tactic(auto, unfolding(crate::specs::Transfers::mark))]
pub(crate) fn mark_of(from: usize) -> u32
    requires { from ≤ 1000 }
    ensures { result ≡ mark from }
{
    if from < DEGREES { from as u32 } else { OUTSIDE }
}
