// The numbers of the radio card, and the ends.
ghost use Rattle.std.specs.Prelude.{◌≡◌, ◌++◌, Some, codes, decimal};
ghost use Rattle.circuit.specs.Card.{number, word, end_code, end_of, DecodesEnd};
ghost use Rattle.circuit.specs.State.{is_open, is_none};

use std::error::Error;
use std::fmt;

// The words of the radio card, each with its number there.
#[derive(Clone, Copy, Debug, PartialEq, Eq, Hash)]
pub enum Answer {
    Taken = 0,
    CutSheet = 1,
    BadCount = 2,
    UnknownBit = 3,
    StrayStation = 4,
    Overhang = 5,
    BadLimit = 6,
    BadWork = 7,
    StraySeed = 8,
    WrongLength = 9,
    NoRoom = 10,
    NotTwoWay = 11,
    StrayRoad = 12,
}

impl Answer {
    // Its number on the radio card.
    pub fn number(self) -> u32
        ensures { result ≡ number self }
    {
        self as u32
    }
}

// The ends, each with its code in a state that lies outside of the library.
#[derive(Clone, Copy, Debug, PartialEq, Eq, Hash)]
pub enum End {
    Open = 0,
    Stable = 1,
    None = 2,
}

// A code that no end has.
#[derive(Clone, Copy, Debug, PartialEq, Eq, Hash)]
pub struct UnknownEnd(pub u64);

impl End {
    pub fn is_open(self) -> bool
        ensures { result ≡ is_open self }
    {
        matches!(self, End::Open)
    }

    pub fn is_none(self) -> bool
        ensures { result ≡ is_none self }
    {
        matches!(self, End::None)
    }

    pub fn word(self) -> &'static str
        ensures { result.now ≡ codes (word self) }
    {
        match self {
            End::Open => "open",
            End::Stable => "stable",
            End::None => "none",
        }
    }

    // Its code in a state that lies outside of the library.
    pub fn code(self) -> u64
        ensures { result ≡ end_code self }
    {
        self as u64
    }

    // The end with this code; `End::None`, where no end has it.
    pub fn of_code(k: u64) -> End
        ensures { result ≡ end_of k }
    {
        End::try_from(k).unwrap_or(End::None)
    }
}

impl TryFrom<u64> for End {
    type Error = UnknownEnd;

    ghost try_from_gives = { DecodesEnd };

    fn try_from(code: u64) -> Result<End, UnknownEnd> {
        match code {
            0 => Ok(End::Open),
            1 => Ok(End::Stable),
            2 => Ok(End::None),
            _ => Err(UnknownEnd(code)),
        }
    }
}

impl fmt::Display for End {
    ghost output = { λ end. Some (codes (word end)) };

    fn fmt<W: fmt::Write>(&self, f: &mut fmt::Formatter<W>) -> fmt::Result {
        f.write_str(self.word())
    }
}

impl fmt::Display for UnknownEnd {
    ghost output = { λ e. Some (codes "no end has the code " ++ decimal e.0) };

    fn fmt<W: fmt::Write>(&self, f: &mut fmt::Formatter<W>) -> fmt::Result {
        write!(f, "no end has the code {}", self.0)
    }
}

impl Error for UnknownEnd {}
