// The check: streams from numbers in fours, or the first rule that they break.
ghost use Rattle.std.specs.Prelude.{◌≡◌, ◌≤◌};
ghost use Rattle.streams.specs.Rules.{stream_or_refusal};
ghost use Rattle.streams.specs.Checked.{Checked, CheckedWithRoom};

use crate::model::{Kind, MOST_STREAMS, Stream};
use crate::refusals::Refusal;
use crate::table::StreamTable;

const MOST_TEMPERATURE: u32 = 1000;

const MOST_RATE: u32 = 1_000_000;

// Two transfers for each degree, three numbers each.
pub const LEAST_ROOM: usize = 6000;

// What stands in a table behind its streams.
const BLANK: Stream = Stream {
    kind: Kind::Hot,
    low: 0,
    high: 0,
    rate: 0,
};

// The stream of four numbers at a place, or the first rule that it breaks.
fn read_stream(gap: u32, place: usize, numbers: [u32; 4]) -> Result<Stream, Refusal>
    requires { gap ≤ 1000 }
    ensures { result ≡ stream_or_refusal gap place numbers }
{
    let [mark, low, high, rate] = numbers;
    let kind = Kind::try_from(mark).map_err(|_| Refusal::UnknownKind(place))?;
    if low >= high {
        return Err(Refusal::LowNotBelowHigh(place));
    }
    if high > MOST_TEMPERATURE - gap {
        return Err(Refusal::TooWarm(place));
    }
    if !(1..=MOST_RATE).contains(&rate) {
        return Err(Refusal::RateOutOfRange(place));
    }
    Ok(Stream {
        kind,
        low,
        high,
        rate,
    })
}

// The streams of numbers in fours (1 for hot or 0 for cold, low, high, heat for each degree) with their gap, or the first rule that they break.
pub fn check(numbers: &[u32], gap: u64) -> Result<StreamTable, Refusal>
    ensures { Checked numbers.now gap result }
{
    let (fours, rest) = numbers.as_chunks::<4>();
    if !rest.is_empty() {
        return Err(Refusal::NotInFours(numbers.len()));
    }
    if fours.len() > MOST_STREAMS {
        return Err(Refusal::TooManyStreams(numbers.len()));
    }
    if gap > u64::from(MOST_TEMPERATURE) {
        return Err(Refusal::GapTooWide);
    }
    let gap = gap as u32;
    let mut streams = [BLANK; MOST_STREAMS];
    // The slot is named by its place: of what is written through `iter_mut().zip(fours)` a proof knows nothing afterwards.
    for (place, four) in fours.iter().enumerate() {
        streams[place] = read_stream(gap, place, *four)?;
    }
    Ok(StreamTable {
        streams,
        count: fours.len(),
        gap,
    })
}

// The same, and that the room has 6,000 numbers or more.
pub fn check_with_room(numbers: &[u32], gap: u64, room: &[u32]) -> Result<StreamTable, Refusal>
    ensures { CheckedWithRoom numbers.now gap room.now result }
{
    let table = check(numbers, gap)?;
    if room.len() < LEAST_ROOM {
        return Err(Refusal::RoomTooSmall(room.len()));
    }
    Ok(table)
}
