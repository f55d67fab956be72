// Reads a printed transfer back.
ghost use Rattle.std.specs.Prelude.{◌≡◌, Some, None, MatchOption};
ghost use Rattle.printing.specs.ReadBack.{FirstAt, cut, place, reads_parts, reads_transfer};

use lexing::number;
use plans::{OUTSIDE, Transfer};

// Where a text first stands in a line, which is bytes and no `str`, so that it may be any.
fn find(bytes: &[u8], text: &[u8]) -> Option<usize>
    ensures { FirstAt text.now bytes.now result }
{
    (0..bytes.len()).find(|start| bytes[*start..].starts_with(text))
}

// What stands before the first such text, and what after it.
#[tactic(auto, using(crate::proofs::Cuts::cut_nowhere, crate::proofs::Cuts::ends_inside))]
fn split_once<'a>(bytes: &'a [u8], text: &[u8]) -> Option<(&'a [u8], &'a [u8])>
    ensures { MatchOption result (cut text.now bytes.now ≡ None) (λ x. cut text.now bytes.now ≡ Some (x.0.now, x.1.now)) }
{
    let start = find(bytes, text)?;
    Some((&bytes[..start], &bytes[start + text.len()..]))
}

// A degree, or the boiler or the river by its name.
#[tactic(auto, unfolding(crate::specs::ReadBack::place))]
fn read_place(name: &[u8], bytes: &[u8]) -> Option<u32>
    ensures { result ≡ place name.now bytes.now }
{
    if bytes == name {
        Some(OUTSIDE)
    } else {
        number(bytes)
    }
}

// The transfer that the parts of a line tell.
fn read_parts(giver: &[u8], taker: &[u8], digits: &[u8]) -> Option<Transfer>
    ensures { result ≡ reads_parts giver.now taker.now digits.now }
{
    let from = read_place(b"boiler", giver)?;
    let to = read_place(b"river", taker)?;
    let heat = number(digits)?;
    Some(Transfer { from, to, heat })
}

// The transfer that a line tells, if it is such a line.
pub fn read_transfer(line: &[u8]) -> Option<Transfer>
    ensures { result ≡ reads_transfer line.now }
{
    let (giver, rest) = split_once(line, b" to ")?;
    let (taker, rest) = split_once(rest, b", ")?;
    match split_once(rest, b"\n")? {
        (digits, []) => read_parts(giver, taker, digits),
        _ => None,
    }
}
