// Bytes of a text, as they are shown to a reader.
ghost use Rattle.std.specs.Prelude.{◌≡◌, Some};
ghost use Rattle.grammar.specs.Shown.{printable, shown_byte, shown};

use std::fmt;

// So many bytes are shown.
const MOST_SHOWN: usize = 40;

// A letter, a digit, a sign or a space of ASCII.
fn is_printable(b: u8) -> bool
    ensures { result ≡ printable b }
{
    matches!(b, b' '..=b'~')
}

// A byte by itself, or by its number where it is no printable ASCII.
#[derive(Clone, Copy)]
struct ShownByte(u8);

impl fmt::Display for ShownByte {
    ghost output = { λ b. Some (shown_byte b.0) };

    fn fmt<W: fmt::Write>(&self, f: &mut fmt::Formatter<W>) -> fmt::Result {
        if is_printable(self.0) {
            write!(f, "{}", char::from(self.0))
        } else {
            write!(f, "\\x{:02x}", self.0)
        }
    }
}

// Bytes of a text, shown safely: the first 40 of them, and those that are no printable ASCII by their number.
#[derive(Clone, Copy, Debug, PartialEq, Eq)]
pub struct Shown<'a>(pub &'a [u8]);

impl fmt::Display for Shown<'_> {
    ghost output = { λ s. Some (shown s.0.now) };

    fn fmt<W: fmt::Write>(&self, f: &mut fmt::Formatter<W>) -> fmt::Result {
        let front = &self.0[..self.0.len().min(MOST_SHOWN)];
        for b in front {
            write!(f, "{}", ShownByte(*b))?;
        }
        if self.0.len() > MOST_SHOWN {
            f.write_str("...")?;
        }
        Ok(())
    }
}
