// What a search hands back.
ghost use Rattle.std.specs.Prelude.{◌≡◌};
ghost use Rattle.finder.specs.Call.{outcome_code, refused};
ghost use Rattle.finder.specs.inner.Parts.{is_no_round};

use circuit::Answer;

// How a search came out.
#[derive(Clone, Copy, Debug, PartialEq, Eq)]
pub enum Outcome {
    Refused,
    Found,
    NoRound,
    UsedUp,
}

// By hand, no Result: `first_call` of specs/Call gives the outcome and the count of a refusal too.
#[derive(Clone, Copy)]
pub struct Sought {
    pub answer: Answer,
    pub outcome: Outcome,
    pub nodes: u32,
}

impl Outcome {
    // Its code for callers in other languages.
    pub fn code(self) -> u32
        ensures { result ≡ outcome_code self }
    {
        self as u32
    }

    // Does the search go on to the next part?
    pub fn is_no_round(self) -> bool
        ensures { result ≡ is_no_round self }
    {
        matches!(self, Outcome::NoRound)
    }
}

impl Sought {
    // A refusal counts no node.
    pub fn refused(answer: Answer) -> Sought
        ensures { result ≡ refused answer }
    {
        Sought {
            answer,
            outcome: Outcome::Refused,
            nodes: 0,
        }
    }
}
