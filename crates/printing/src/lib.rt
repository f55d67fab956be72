// Printing: the answer as a brewer reads it, first the targets, then a line for each transfer.
#![tactic(auto)]

mod reader;

ghost use Rattle.std.specs.Prelude.{◌≡◌, ◌++◌, Some, string_bytes, OnOk};
ghost use Rattle.printing.specs.ReadBack.{ReadsBack};
ghost use Rattle.printing.specs.Printed.{first_line_bytes, transfer_line_bytes, transfer_lines};

use plans::{OUTSIDE, Transfer};
pub use reader::read_transfer;
use std::alloc::AllocError;
use std::fmt;
use targets::Targets;

// The line that stands first: what is bought, what goes to the river, and the degree across which nothing may pass.
#[derive(Clone, Copy, Debug, PartialEq, Eq)]
pub struct TargetsLine(pub Targets);

impl fmt::Display for TargetsLine {
    ghost output = { λ line. Some (first_line_bytes line.0) };

    fn fmt<W: fmt::Write>(&self, f: &mut fmt::Formatter<W>) -> fmt::Result {
        let (heating, cooling) = (self.0.heating, self.0.cooling);
        match self.0.pinch {
            Some(degree) => writeln!(
                f,
                "boiler {heating}, river {cooling}, nothing passes at {degree}"
            ),
            None => writeln!(f, "boiler {heating}, river {cooling}, nothing is lacking"),
        }
    }
}

// The line of a transfer, with the boiler and the river by their names.
#[derive(Clone, Copy, Debug, PartialEq, Eq)]
pub struct TransferLine(pub Transfer);

impl fmt::Display for TransferLine {
    ghost output = { λ line. Some (transfer_line_bytes line.0.from line.0.to line.0.heat) };

    fn fmt<W: fmt::Write>(&self, f: &mut fmt::Formatter<W>) -> fmt::Result {
        let Transfer { from, to, heat } = self.0;
        match (from, to) {
            (OUTSIDE, _) => writeln!(f, "boiler to {to}, {heat}"),
            (_, OUTSIDE) => writeln!(f, "{from} to river, {heat}"),
            _ => writeln!(f, "{from} to {to}, {heat}"),
        }
    }
}

// Adds a line for each three numbers.
#[tactic(auto, using(crate::proofs::Reading::reads_back_lem, crate::proofs::Threes::in_threes, std::proofs::lemmas::List::take_all))]
pub fn push_transfers(out: &mut String, numbers: &[u32]) -> Result<(), AllocError>
    ensures lines { OnOk result (string_bytes out.new ≡ string_bytes out.old ++ transfer_lines numbers.now) }
    ensures reads_back { ReadsBack }
{
    let (threes, _) = numbers.as_chunks::<3>();
    for &[from, to, heat] in threes {
        write!(out, "{}", TransferLine(Transfer { from, to, heat }))?;
    }
    Ok(())
}
