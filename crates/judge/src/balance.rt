// Degrees in balance: what transfers come to there is what the streams give and want.
ghost use Rattle.std.specs.Prelude.{◌≡◌, not, ◌==◌, filter, sum_by, slice_index, Decides};
ghost use Rattle.judge.specs.Pieces.{streams_of, transfers_of, heat_in, BalancedFor, BalanceJudged};

use crate::case::Case;
use crate::flaws::Flaw;
use crate::order::DEGREES;

// A stream's heat in a degree, as if it were warmer by the shift.
fn heat_at(stream: &[u32; 4], shift: u64, degree: u32) -> u64
    ensures { result ≡ heat_in shift degree stream.now }
{
    let [_, low, high, rate] = *stream;
    match u64::from(degree).checked_sub(shift) {
        Some(own) if u64::from(low) <= own && own < u64::from(high) => u64::from(rate),
        _ => 0,
    }
}

impl Case<'_> {
    // What hot streams give in a degree; 64 of less than 2^32 each fit. The judge reads a mark for itself, since it calls no code of the planner: 1 is hot.
    // Two chains, this and the next: with the test of the mark as a parameter, the contract would have to say what a closure computes, and with the mark
    // as a flag, both the clause and the filter would compare it with a test.
    fn given_at(&self, degree: u32) -> u64
        ensures { result ≡ sum_by (heat_in 0 degree) (filter (λ s. slice_index s 0 == 1) self.now.streams.now) }
    {
        self.streams
            .iter()
            .filter(|[mark, ..]| *mark == 1)
            .map(|stream| heat_at(stream, 0, degree))
            .sum()
    }

    // What cold streams, those of any other mark, want there, counted as warmer by the gap.
    fn wanted_at(&self, degree: u32) -> u64
        ensures { result ≡ sum_by (heat_in self.now.gap degree) (filter (λ s. not (slice_index s 0 == 1)) self.now.streams.now) }
    {
        self.streams
            .iter()
            .filter(|[mark, ..]| *mark != 1)
            .map(|stream| heat_at(stream, self.gap, degree))
            .sum()
    }

    // What the transfers from a degree come to; as many as a slice holds fit. Two short chains, this and the
    // next: with the test as a parameter, the contract would have to say what a closure computes.
    fn sent_at(&self, degree: u32) -> u128
        ensures { result ≡ sum_by (λ t. slice_index t 2) (filter (λ t. slice_index t 0 == degree) self.now.plan.now) }
    {
        self.plan
            .iter()
            .filter(|[from, ..]| *from == degree)
            .map(|[_, _, heat]| u128::from(*heat))
            .sum()
    }

    // And those to it.
    fn got_at(&self, degree: u32) -> u128
        ensures { result ≡ sum_by (λ t. slice_index t 2) (filter (λ t. slice_index t 1 == degree) self.now.plan.now) }
    {
        self.plan
            .iter()
            .filter(|[_, to, _]| *to == degree)
            .map(|[_, _, heat]| u128::from(*heat))
            .sum()
    }

    // Whether a degree gives all that it has and gets all that it wants.
    fn balances(&self, degree: u32) -> bool
        ensures { Decides result (BalancedFor (streams_of self.now.streams.now) self.now.gap (transfers_of self.now.plan.now) degree) }
    {
        self.sent_at(degree) == u128::from(self.given_at(degree))
            && self.got_at(degree) == u128::from(self.wanted_at(degree))
    }

    // All degrees balance, or which is the first from above that doesn't.
    pub(crate) fn check_balance(&self) -> Result<(), Flaw>
        ensures { BalanceJudged (streams_of self.now.streams.now) self.now.gap (transfers_of self.now.plan.now) result }
    {
        // A `for`: with `find` over a range from above the proof did not close.
        for degree in (0..DEGREES).rev() {
            if !self.balances(degree) {
                return Err(Flaw::Unbalanced(degree as usize));
            }
        }
        Ok(())
    }
}
