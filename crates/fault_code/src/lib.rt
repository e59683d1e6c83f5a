//! Codes of faults, such as `V3` (docs/COMMANDS.md, "Refusals").
#![tactic(auto)]

ghost use Rattle.std.specs.Prelude.{◌≡◌, None, Some};
ghost use Rattle.fault_code.specs.Code.{code_text, lettered};

use std::fmt;

/// The code of a fault: its letter, its number, and the line, place or `pc` of the fault if it has one.
///
/// `Display` prints `V3` or, with a place, `V3 7`.
#[derive(Clone, Copy, Debug, PartialEq, Eq)]
pub struct Code {
    pub letter: char,
    pub number: u8,
    pub place: Option<usize>,
}

impl Code {
    /// Returns a code without a place.
    pub fn plain(letter: char, number: u8) -> Code
        ensures { result ≡ lettered letter number None }
    {
        Code {
            letter,
            number,
            place: None,
        }
    }

    /// Returns a code with a place.
    pub fn at(letter: char, number: u8, place: usize) -> Code
        ensures { result ≡ lettered letter number (Some place) }
    {
        Code {
            letter,
            number,
            place: Some(place),
        }
    }
}

impl fmt::Display for Code {
    ghost output = { λ code. Some (code_text code) };

    fn fmt<W: fmt::Write>(&self, f: &mut fmt::Formatter<W>) -> fmt::Result {
        match self.place {
            Some(place) => write!(f, "{}{} {place}", self.letter, self.number),
            None => write!(f, "{}{}", self.letter, self.number),
        }
    }
}
