// The words that a line may begin with.
ghost use Rattle.std.specs.Prelude.{◌≡◌};
ghost use Rattle.grammar.specs.Keywords.{keyword_in};

use streams::Kind;

// What a line is about: a stream of some kind, the gap, or the plan.
#[derive(Clone, Copy)]
pub(crate) enum Keyword {
    Stream(Kind),
    Gap,
    Plan,
}

// The keyword that a word is, if it is one: compared as bytes, so that a long word is not read to its end. It stays a call: inlined, it takes the
// registers of the loop that looks for a word's end, which then takes half as long again.
#[inline(never)]
#[tactic(auto, unfolding(crate::specs::Keywords::keyword_in))]
pub(crate) fn find_keyword(word: &[u8]) -> Option<Keyword>
    ensures { result ≡ keyword_in word.now }
{
    match word {
        b"hot" => Some(Keyword::Stream(Kind::Hot)),
        b"cold" => Some(Keyword::Stream(Kind::Cold)),
        b"gap" => Some(Keyword::Gap),
        b"plan" => Some(Keyword::Plan),
        _ => None,
    }
}
