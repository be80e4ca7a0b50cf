// Why a call is refused.
ghost use Rattle.std.specs.Prelude.{◌≡◌, Some};
ghost use Rattle.pages.specs.Refusals.{number_of, place_of, told};

use std::error::Error;
use std::fmt;

// Each case has exactly the values that are told of it.
#[derive(Clone, Copy, Debug, PartialEq, Eq)]
pub enum Refusal<'a> {
    // rows that form no lawful tree: the node
    Misshapen(usize),
    // a node below level 64: the node
    Deep(usize),
    // bytes that are no listing: the byte's place
    Unread(usize),
    // a name of over 255 bytes: the node that has it, or 0
    Long(usize),
    // a name with a byte of 128 or more: the node that has it, or 0
    Foreign(usize),
    // a pin that may be no property name: the name and its pin, as the caller gave them
    BadPin(&'a [u8], &'a [u8]),
    // a name that is a number with too many digits or too far a point: the node
    LongNumber(usize),
    // an eligible name that finds no free spelling: its rank in assigning order
    Spent(usize),
    // a result that needs more room than was handed, or passes a limit
    Overfull,
}

impl Refusal<'_> {
    // Which case this is, counted from 1. The numbers are fixed: they are what a program prints (docs/RULES.md).
    pub fn number(&self) -> u8
        ensures { result ≡ number_of self.now }
    {
        match self {
            Refusal::Misshapen(_) => 1,
            Refusal::Deep(_) => 2,
            Refusal::Unread(_) => 3,
            Refusal::Long(_) => 4,
            Refusal::Foreign(_) => 5,
            Refusal::BadPin(_, _) => 6,
            Refusal::LongNumber(_) => 7,
            Refusal::Spent(_) => 8,
            Refusal::Overfull => 9,
        }
    }

    // The node, byte or rank that is told; 0 where there is none to tell, since a place is always printed too.
    pub fn place(&self) -> usize
        ensures { result ≡ place_of self.now }
    {
        match self {
            Refusal::Misshapen(n)
            | Refusal::Deep(n)
            | Refusal::Unread(n)
            | Refusal::Long(n)
            | Refusal::Foreign(n)
            | Refusal::LongNumber(n)
            | Refusal::Spent(n) => *n,
            Refusal::BadPin(_, _) | Refusal::Overfull => 0,
        }
    }
}

// Its number and its place.
impl fmt::Display for Refusal<'_> {
    ghost output = { λ r. Some (told r) };

    fn fmt<W: fmt::Write>(&self, f: &mut fmt::Formatter<W>) -> fmt::Result {
        write!(f, "{} {}", self.number(), self.place())
    }
}

impl Error for Refusal<'_> {}
