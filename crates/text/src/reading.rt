// A whole text, line by line.
ghost use Rattle.text.specs.Asked.{Read};

use crate::problem::Problem;
use crate::turned::Turned;
use grammar::read_line;
use lexing::lines_of;
use std::alloc::Global;

// What the text asks, or the first line that can't be read.
#[tactic(auto, using(crate::proofs::Lining::one_line))]
pub(crate) fn read_problem(heap: Global, text: &[u8]) -> Result<Problem, Turned<'_>>
    ensures { Read text.now result }
{
    let mut problem = Problem::new(heap);
    for (place, line) in lines_of(text).enumerate() {
        match read_line(line) {
            Ok(said) => problem.note(said, place)?,
            Err(fault) => return Err(Turned::Unreadable { place, fault }),
        }
    }
    Ok(problem)
}
