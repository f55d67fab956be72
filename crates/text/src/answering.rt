// From text to printed text.
ghost use Rattle.std.specs.Prelude.{◌≡◌, ◌*◌, ◌≤◌, [], length, IfOk, string_bytes, slice_index_or};
ghost use Rattle.lexing.specs.Lexing.{lines};
ghost use Rattle.text.specs.Answered.{printed_bytes, quoted, Answered, Quotes};

use crate::reading::read_problem;
use crate::turned::Turned;
use lexing::{before_comment, lines_of, trim_end};
use plans::{Written, write_plan};
use printing::{TargetsLine, push_transfers};
use std::alloc::{AllocError, Global};
use streams::LEAST_ROOM;

// The line at a place, or nothing where there is none.
fn line_at(text: &[u8], place: usize) -> &[u8]
    ensures { result.now ≡ slice_index_or (lines text.now) place [] }
{
    lines_of(text).nth(place).unwrap_or(&[])
}

// The line at a place as it is quoted: without its comment and the blanks at its end.
fn quote(text: &[u8], place: usize) -> &[u8]
    ensures { result.now ≡ quoted text.now place }
{
    trim_end(before_comment(line_at(text, place)))
}

// What is printed for a plan in the room: its targets, and its transfers if they are wished for.
fn printed(heap: Global, written: Written, wished: bool, room: &[u32]) -> Result<String, AllocError>
    requires { 3 * written.transfers ≤ length room.now }
    ensures { IfOk result (λ s. string_bytes s ≡ printed_bytes written wished room.now) }
{
    let mut out = TargetsLine(written.targets).to_string(heap)?;
    if wished {
        push_transfers(&mut out, &room[..3 * written.transfers])?;
    }
    Ok(out)
}

// What is printed for a text, or why it is turned away.
pub fn answer(heap: Global, text: &[u8]) -> Result<String, Turned<'_>>
    ensures answered { Answered text.now result }
    ensures quotes { Quotes text.now result }
{
    let problem = read_problem(heap, text)?;
    // The planner allocates nothing: it is lent a room, and says how much of it the plan takes.
    let mut room = [0; LEAST_ROOM];
    match write_plan(problem.numbers(), problem.gap(), &mut room) {
        Ok(written) => Ok(printed(heap, written, problem.plan, &room)?),
        Err(refusal) => {
            let place = problem.place_of(refusal);
            let line = quote(text, place);
            Err(Turned::Refused {
                refusal,
                place,
                line,
            })
        }
    }
}
