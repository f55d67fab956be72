// A sentence that a brewer understands, naming the line as an editor counts it, from 1.
ghost use Rattle.std.specs.Prelude.{Some};
ghost use Rattle.text.specs.Sentences.{rule_broken, beginning, said_of};

use crate::turned::Turned;
use grammar::Shown;
use std::error::Error;
use std::fmt;
use streams::Refusal;

// What is wrong with a line that breaks a rule.
#[derive(Clone, Copy)]
struct BrokenRule(Refusal);

impl fmt::Display for BrokenRule {
    ghost output = { λ rule. Some (rule_broken rule.0) };

    fn fmt<W: fmt::Write>(&self, f: &mut fmt::Formatter<W>) -> fmt::Result {
        f.write_str(match self.0 {
            Refusal::TooManyStreams(_) => "is one stream more than the 64 that are taken",
            Refusal::GapTooWide => "has a gap above 1000, and 0 to 1000 is allowed",
            Refusal::LowNotBelowHigh(_) =>
                "runs the wrong way or has no width: a hot stream is written from its higher temperature down, a cold one from its lower one up",
            Refusal::TooWarm(_) =>
                "is too warm: the higher temperature and the gap may come to 1000 together at most",
            Refusal::RateOutOfRange(_) => "has heat for each degree that isn't 1 to 1000000",
            Refusal::NotInFours(_)
            | Refusal::UnknownKind(_)
            | Refusal::RoomTooSmall(_)
            | Refusal::Unreadable(_) => "can't be used",
        })
    }
}

// How a sentence begins: with the refusal's number and place, as other languages get them, and the line.
#[derive(Clone, Copy)]
struct Beginning {
    refusal: Refusal,
    place: usize,
}

impl fmt::Display for Beginning {
    ghost output = { λ b. Some (beginning b.refusal b.place) };

    fn fmt<W: fmt::Write>(&self, f: &mut fmt::Formatter<W>) -> fmt::Result {
        write!(
            f,
            "turned away {} at {}: line {}",
            self.refusal.number(),
            self.refusal.place(),
            self.place.saturating_add(1)
        )
    }
}

impl fmt::Display for Turned<'_> {
    ghost output = { λ turned. Some (said_of turned) };

    fn fmt<W: fmt::Write>(&self, f: &mut fmt::Formatter<W>) -> fmt::Result {
        match *self {
            Turned::Unreadable { place, fault } => {
                let refusal = Refusal::Unreadable(place);
                write!(f, "{} {}", Beginning { refusal, place }, fault)
            }
            Turned::Refused {
                refusal,
                place,
                line,
            } => write!(
                f,
                "{} ('{}') {}",
                Beginning { refusal, place },
                Shown(line),
                BrokenRule(refusal)
            ),
            Turned::NoMemory => f.write_str("there is not enough memory for this text"),
        }
    }
}

impl Error for Turned<'_> {}
