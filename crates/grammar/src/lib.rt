// Grammar: what one line of a text says.
#![tactic(auto)]

mod keywords;
mod sentences;
mod shown;
mod statements;

pub use shown::Shown;
pub use statements::{LineFault, Statement, read_line};
