// The judge: whether an adviser's plan is good, from the streams' numbers, the gap and the room alone, by sums of its own.
#![tactic(auto)]

mod balance;
mod case;
mod flaws;
mod order;
mod verdicts;

pub use flaws::Flaw;
pub use verdicts::judge;
