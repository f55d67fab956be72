// The order of transfers: the warmest place that takes first, and for one place the warmest that gives first.
ghost use Rattle.std.specs.Prelude.{◌≡◌, not, slice_index};
ghost use Rattle.judge.specs.Verdicts.{transfer_in};
ghost use Rattle.judge.specs.Pieces.{placed, fair, rising, behind, follows, transfers_of, OrderJudged};

use crate::case::Case;
use crate::flaws::Flaw;
use plans::Transfer;

// Degrees are 0 to 999. The judge has constants of its own, so that no slip hides in both it and the planner.
pub(crate) const DEGREES: u32 = 1000;

// The mark of the boiler, as what gives, and of the river, as what takes; the judge's own too.
const OUTSIDE: u32 = 65535;

// Three numbers are a transfer: from, to, how much. The judge reads them for itself, too.
pub(crate) fn transfer_of(three: &[u32; 3]) -> Transfer
    ensures { result ≡ transfer_in (slice_index three.now 0) (slice_index three.now 1) (slice_index three.now 2) }
{
    let [from, to, heat] = *three;
    Transfer { from, to, heat }
}

// A degree, or outside.
fn is_place(mark: u32) -> bool
    ensures { result ≡ placed mark }
{
    mark < DEGREES || mark == OUTSIDE
}

// Something goes from a place to a place, and not from the boiler to the river.
fn is_fair(t: Transfer) -> bool
    ensures { result ≡ fair t }
{
    t.heat > 0 && is_place(t.from) && is_place(t.to) && !(t.from == OUTSIDE && t.to == OUTSIDE)
}

// It doesn't go to a warmer degree.
fn falls(t: Transfer) -> bool
    ensures { result ≡ not (rising t) }
{
    t.to >= DEGREES || t.to <= t.from
}

// It stands behind the one before it.
fn is_behind(before: Transfer, t: Transfer) -> bool
    ensures { result ≡ behind before t }
{
    t.to < before.to || t.to == before.to && t.from < before.from
}

// It may stand there, behind the one before it if there is one.
fn may_follow(before: Option<Transfer>, t: Transfer) -> bool
    ensures { result ≡ follows before t }
{
    is_fair(t) && falls(t) && before.is_none_or(|before| is_behind(before, t))
}

impl Case<'_> {
    // Each transfer may follow the one before it, or which is the first that may not.
    pub(crate) fn check_order(&self) -> Result<(), Flaw>
        ensures { OrderJudged (transfers_of self.now.plan.now) result }
    {
        let mut before = None;
        for (place, three) in self.plan.iter().enumerate() {
            let t = transfer_of(three);
            if !may_follow(before, t) {
                return Err(Flaw::OutOfOrder(place));
            }
            before = Some(t);
        }
        Ok(())
    }
}
