// Streams: what a caller's numbers mean, which of them are refused, and what hot streams give and cold streams take in each degree.
#![tactic(auto)]

mod checking;
mod loads;
mod model;
mod refusals;
mod summing;
mod table;

pub use checking::{LEAST_ROOM, check, check_with_room};
pub use loads::Loads;
pub use model::{DEGREES, Kind, MOST_STREAMS, Stream, UnknownMark};
pub use refusals::Refusal;
pub use table::StreamTable;
