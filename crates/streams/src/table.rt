// Streams that were checked, as a type: whoever holds one knows that every rule is kept.
ghost use Rattle.std.specs.Prelude.{ℕ, ◌<◌, ◌≤◌, slice_index_or};
ghost use Rattle.streams.specs.Rules.{Sound, blank};

use crate::model::{MOST_STREAMS, Stream};

// Up to 64 streams, the first `count` of `streams`, with the gap that they are to keep.
// An array and a count and no growing list: nothing here allocates, and a table is copied as it is.
#[derive(Clone, Copy)]
pub struct StreamTable {
    pub(crate) streams: [Stream; MOST_STREAMS],
    pub(crate) count: usize,
    pub(crate) gap: u32,
    ghost few: { count ≤ 64 },
    ghost narrow: { gap ≤ 1000 },
    ghost sound: { (i : ℕ) → i < count → Sound gap (slice_index_or streams i blank) },
}
