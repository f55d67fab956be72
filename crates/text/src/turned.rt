// Why a text is turned away.
ghost use Rattle.std.specs.Prelude.{◌≡◌};
ghost use Rattle.text.specs.declared.turned.Turned.TheVariants.{NoMemory};

use grammar::LineFault;
use std::alloc::{AllocError, AllocFailed};
use streams::Refusal;

// A line that can't be read, by its place from 0; a rule that the streams or the gap break, with the line that it speaks of, by its place and its bytes; or want of memory,
// which is no fault of the text.
#[derive(Clone, Copy, Debug, PartialEq, Eq)]
pub enum Turned<'a> {
    Unreadable {
        place: usize,
        fault: LineFault<'a>,
    },
    Refused {
        refusal: Refusal,
        place: usize,
        line: &'a [u8],
    },
    NoMemory,
}

// Two impls with one body, since memory is wanted by two types of error.
impl From<AllocError> for Turned<'_> {
    ghost from_gives = { λ _ r. r ≡ NoMemory };

    fn from(_e: AllocError) -> Self {
        Turned::NoMemory
    }
}

impl<T: Drop> From<AllocFailed<T>> for Turned<'_> {
    ghost from_gives = { λ _ r. r ≡ NoMemory };

    fn from(_e: AllocFailed<T>) -> Self {
        Turned::NoMemory
    }
}
