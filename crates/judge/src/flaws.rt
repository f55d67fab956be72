// What can be wrong with a plan that stands in a room.

#[derive(Clone, Copy, Debug, PartialEq, Eq)]
pub enum Flaw {
    // These are no streams in numbers that can be judged, or the room is shorter than its transfers.
    Unfit,
    // The transfer at this place, counted from 0, is of nothing, goes from or to what is no place, from the boiler to the river or to a warmer degree, or doesn't stand behind the one before it.
    OutOfOrder(usize),
    // The first degree from above that doesn't give all it has, or doesn't get all it wants.
    Unbalanced(usize),
}
