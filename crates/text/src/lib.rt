// Text: reads what a brewer asks, line by line, and prints the answer, or says what is wrong; everything but the bytes in and out.
#![tactic(auto)]

mod answering;
mod problem;
mod reading;
mod sentences;
mod turned;

pub use answering::answer;
pub use turned::Turned;
