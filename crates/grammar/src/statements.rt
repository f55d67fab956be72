// Statements: a stream, the gap, or a wish for the plan.
ghost use Rattle.std.specs.Prelude.{◌≡◌, Some, None, MatchResult};
ghost use Rattle.lexing.specs.Lexing.{words, uncommented};
ghost use Rattle.grammar.specs.Statements.{number_and_rest, done, stream_said, said, statement, Reads};

use crate::keywords::{Keyword, find_keyword};
use lexing::{before_comment, number, split_word};
use streams::{Kind, Stream};

// What a line says.
#[derive(Clone, Copy, Debug, PartialEq, Eq)]
pub enum Statement {
    Stream(Stream),
    Gap(u32),
    Plan,
}

// What is wrong with a line that can't be read; the words are the line's own.
#[derive(Clone, Copy, Debug, PartialEq, Eq)]
pub enum LineFault<'a> {
    UnknownWord(&'a [u8]),
    NumberMissing,
    NotANumber(&'a [u8]),
    WordTooMany(&'a [u8]),
    SecondGap,
    SecondPlan,
}

// The number that comes next, and what stands behind it.
fn next_number(text: &[u8]) -> Result<(u32, &[u8]), LineFault<'_>>
    ensures { MatchResult result (λ x. number_and_rest (words text.now) ≡ Some (x.0, words x.1.now)) (λ _. number_and_rest (words text.now) ≡ None) }
{
    let (word, rest) = split_word(text).ok_or(LineFault::NumberMissing)?;
    let value = number(word).ok_or(LineFault::NotANumber(word))?;
    Ok((value, rest))
}

// Nothing more comes.
fn finish(text: &[u8]) -> Result<(), LineFault<'_>>
    ensures { MatchResult result (λ _. done (words text.now) ≡ Some tt) (λ _. done (words text.now) ≡ None) }
{
    match split_word(text) {
        None => Ok(()),
        Some((word, _)) => Err(LineFault::WordTooMany(word)),
    }
}

// A stream is written from and to in the way it goes: a hot one from its higher temperature, a cold one from its lower.
#[tactic(auto, unfolding(crate::specs::Statements::stream_said))]
fn read_stream(kind: Kind, text: &[u8]) -> Result<Stream, LineFault<'_>>
    ensures { Reads (stream_said kind (words text.now)) result }
{
    let (from, text) = next_number(text)?;
    let (to, text) = next_number(text)?;
    let (rate, text) = next_number(text)?;
    finish(text)?;
    let (low, high) = match kind {
        Kind::Hot => (to, from),
        Kind::Cold => (from, to),
    };
    Ok(Stream {
        kind,
        low,
        high,
        rate,
    })
}

// What the words behind a keyword say.
#[tactic(auto, unfolding(crate::specs::Statements::gap_said, crate::specs::Statements::said))]
fn read_statement(keyword: Keyword, text: &[u8]) -> Result<Statement, LineFault<'_>>
    ensures { Reads (said keyword (words text.now)) result }
{
    match keyword {
        Keyword::Stream(kind) => Ok(Statement::Stream(read_stream(kind, text)?)),
        Keyword::Gap => {
            let (gap, text) = next_number(text)?;
            finish(text)?;
            Ok(Statement::Gap(gap))
        }
        Keyword::Plan => {
            finish(text)?;
            Ok(Statement::Plan)
        }
    }
}

// What a line says, if it is no blank or comment.
#[tactic(auto, unfolding(crate::specs::Statements::statement))]
pub fn read_line(line: &[u8]) -> Result<Option<Statement>, LineFault<'_>>
    ensures { Reads (statement (words (uncommented line.now))) result }
{
    let Some((word, rest)) = split_word(before_comment(line)) else {
        return Ok(None);
    };
    let keyword = find_keyword(word).ok_or(LineFault::UnknownWord(word))?;
    Ok(Some(read_statement(keyword, rest)?))
}
