//! Why a call was turned away. All layers share this one enum, and each case has a number, under which docs and programs tell it.
#![tactic(auto)]

ghost use Rattle.std.specs.Prelude.{◌≡◌, ◌++◌, Some, codes};
ghost use Rattle.std.specs.Fmt.{decimal};
ghost use Rattle.refusal.specs.Numbers.{number_of};

use std::error::Error;
use std::fmt;

#[derive(Clone, Copy, PartialEq, Eq, Debug)]
pub enum Refusal {
    /// The part is dead: its array's size is no power of two from 256 to the dialect's largest.
    Dead = 1,
    /// Power is off.
    PowerOff = 2,
    /// The part is selected already.
    AlreadySelected = 3,
    /// The part is not selected.
    NotSelected = 4,
    /// More than 7 clocks are left over.
    TooManyClocks = 5,
    /// Power is on already.
    AlreadyOn = 6,
    /// No unheld byte came in the selection.
    NoByte = 10,
    /// The part was waking, or it was storing or recalling and the opcode was not that of read status.
    Busy = 11,
    /// The opcode names no instruction.
    UnknownOpcode = 12,
    /// The instruction writes, and the latch was clear.
    NotEnabled = 13,
    /// Some data fell in the protected range.
    Protected = 14,
    /// Too few or too many bytes came for the instruction.
    WrongLength = 15,
    /// Clocks were left over behind the last whole byte.
    LeftoverClocks = 16,
    /// The sum of a secure frame does not fit.
    WrongSum = 17,
    /// The address is not below the cell array's size.
    AddressPastEnd = 41,
    /// The page is not below the cell array's number of pages.
    PagePastEnd = 42,
}

impl Refusal {
    /// The number of this refusal. It is never 0, which stands for done.
    pub fn number(self) -> u8
        ensures { result ≡ number_of self }
    {
        self as u8
    }
}

// As programs print it: by its number.
impl fmt::Display for Refusal {
    ghost output = { λ refusal. Some (codes "refused with " ++ decimal (number_of refusal)) };

    fn fmt<W: fmt::Write>(&self, f: &mut fmt::Formatter<W>) -> fmt::Result {
        write!(f, "refused with {}", self.number())
    }
}

impl Error for Refusal {}
