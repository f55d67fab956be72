// What a trial can end with before it has found all well.
use judge::Flaw;
use std::alloc::AllocError;
use std::error::Error;
use std::fmt;

#[derive(Clone, Copy, Debug)]
pub enum Trouble {
    // Memory ran out, which says nothing of the planner.
    NoMemory,
    // The judge finds this in the plan.
    Judged(Flaw),
    // Something else is not as it should be.
    Wrong(&'static str),
}

impl From<AllocError> for Trouble {
    fn from(_error: AllocError) -> Trouble {
        Trouble::NoMemory
    }
}

impl From<Flaw> for Trouble {
    fn from(flaw: Flaw) -> Trouble {
        Trouble::Judged(flaw)
    }
}

impl fmt::Display for Trouble {
    fn fmt<W: fmt::Write>(&self, f: &mut fmt::Formatter<W>) -> fmt::Result {
        f.write_str(match self {
            Trouble::NoMemory => "memory allocation failed",
            Trouble::Judged(_) => "the judge does not find the plan good",
            Trouble::Wrong(what) => what,
        })
    }
}

impl Error for Trouble {}
