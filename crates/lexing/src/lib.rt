// Lexing: the lines, words and whole numbers of a text, byte by byte.
#![tactic(auto)]

ghost use Rattle.std.specs.Prelude.{◌≡◌, ◌+◌, ◌≤◌, [], ◌∷◌, length, MatchOption, not, position};
ghost use Rattle.std.specs.Iterator.{YieldsFirstRef, item_count};
ghost use Rattle.lexing.specs.Lexing.{blank, with_digit, uncommented, trimmed, lines, words, number_in, lines_to_come, LineAndRest};

// A space, a tab or a carriage return.
fn is_blank(b: u8) -> bool
    ensures { result ≡ blank b }
{
    matches!(b, b' ' | b'\t' | b'\r')
}

// The first line, and the text behind its newline, if it has one.
#[tactic(auto, using(crate::proofs::Cutting::line_ends, crate::proofs::Cutting::last_line))]
pub fn split_line(text: &[u8]) -> (&[u8], Option<&[u8]>)
    ensures { LineAndRest text.now result.0.now result.1 }
{
    match text.iter().position(|b| *b == b'\n') {
        Some(end) => (&text[..end], Some(&text[end + 1..])),
        None => (text, None),
    }
}

// The lines of a text, one after the other. An iterator of its own, since that of `split` by a closure has no name by which it could be answered.
#[derive(Drop)]
pub struct Lines<'a> {
    rest: Option<&'a [u8]>,
}

impl<'a> Iterator for Lines<'a> {
    type Item = &'a [u8];

    ghost next_gives = { YieldsFirstRef lines_to_come };

    ghost remaining = { item_count lines_to_come };

    fn next(&mut self) -> Option<&'a [u8]> {
        let (line, rest) = split_line(self.rest?);
        self.rest = rest;
        Some(line)
    }
}

// The lines of a text, of which there is one more than newlines.
#[tactic(auto, using(crate::proofs::Cutting::lines_few))]
pub fn lines_of(text: &[u8]) -> Lines<'_>
    ensures all { lines_to_come result ≡ lines text.now }
    ensures few { length (lines_to_come result) ≤ length text.now + 1 }
{
    Lines { rest: Some(text) }
}

// The line up to a '#', which begins a comment.
#[tactic(auto, using(crate::proofs::Cutting::comment_begins, crate::proofs::Cutting::no_comment))]
pub fn before_comment(line: &[u8]) -> &[u8]
    ensures { result.now ≡ uncommented line.now }
{
    match line.iter().position(|b| *b == b'#') {
        Some(end) => &line[..end],
        None => line,
    }
}

// The line without the blanks at its end.
#[tactic(auto, using(crate::proofs::Cutting::blanks_begin, crate::proofs::Cutting::all_blank))]
pub fn trim_end(line: &[u8]) -> &[u8]
    ensures { result.now ≡ trimmed line.now }
{
    match line.iter().rposition(|b| !is_blank(*b)) {
        Some(last) => &line[..=last],
        None => &[],
    }
}

// The place of the first byte that is no blank. This and the next are functions of their own, since with both in `split_word` the proof did not close;
// and they are two, since with the test as a parameter the contract would have to say what a closure computes.
fn find_word(text: &[u8]) -> Option<usize>
    ensures { result ≡ position (λ b. not (blank b)) text.now }
{
    text.iter().position(|b| !is_blank(*b))
}

// The place of the first blank.
fn find_blank(text: &[u8]) -> Option<usize>
    ensures { result ≡ position blank text.now }
{
    text.iter().position(|b| is_blank(*b))
}

// The first word, and what stands behind it, if there is any.
#[tactic(auto, using(crate::proofs::Cutting::no_words, crate::proofs::Cutting::word_cut, crate::proofs::Cutting::stop_within))]
pub fn split_word(text: &[u8]) -> Option<(&[u8], &[u8])>
    ensures { MatchOption result (words text.now ≡ []) (λ x. words text.now ≡ x.0.now ∷ words x.1.now) }
{
    let start = find_word(text)?;
    let rest = &text[start..];
    let end = find_blank(rest).unwrap_or(rest.len());
    Some((&rest[..end], &rest[end..]))
}

// The value with a digit more, if it is one, and the value stays below 2^32.
fn with_digit(value: u32, b: u8) -> Option<u32>
    ensures { result ≡ with_digit value b }
{
    let digit = char::from(b).to_digit(10)?;
    value.checked_mul(10)?.checked_add(digit)
}

// The number that a word of digits writes, if it is below 2^32. `parse` would take a sign too.
pub fn number(word: &[u8]) -> Option<u32>
    ensures { result ≡ number_in word.now }
{
    if word.is_empty() {
        return None;
    }
    word.iter().try_fold(0, |value, b| with_digit(value, *b))
}
