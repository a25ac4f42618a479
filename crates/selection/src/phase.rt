// How far a selection has come. Bytes under hold do not count.
ghost use Rattle.std.specs.Prelude.{◌≡◌};
ghost use Rattle.selection.specs.View.{names_write};

use crate::held::Held;
use crate::opcode::is_write;
use crate::writing::{DirectWrite, PageWrite};
use dialect::Instruction;
use refusal::Refusal;

#[derive(Clone, Copy)]
pub enum Phase {
    // No byte came yet: the next one is the opcode.
    Opcode,
    // The opcode was turned away; whether it named a write (write status, write or secure write).
    TurnedAway {
        refusal: Refusal,
        names_write: bool,
    },
    // Enable, disable, store, recall or nothing; whether a byte followed.
    Command {
        instruction: Instruction,
        followed: bool,
    },
    ReadingStatus,
    // How many data bytes came, where 2 stands for any more, and the first of them.
    WritingStatus {
        count: u8,
        first: u8,
    },
    // Read, write or secure read: the address bytes so far. The last of them ends the phase.
    Address {
        instruction: Instruction,
        held: Held,
    },
    // The address of the next byte.
    Reading {
        at: u32,
    },
    // The address, and how many bytes were driven, of the 66 that there are. A count, as the rules have it.
    ReadingSecure {
        from: u32,
        driven: u8,
    },
    WritingPaged(PageWrite),
    WritingDirect(DirectWrite),
    // Secure write: the bytes of the frame so far.
    Frame {
        held: Held,
    },
    // Secure write: more bytes than a frame has.
    FrameTooLong,
}

impl Phase {
    // Whether this is the selection of a write, whose release clears the latch, done or refused.
    pub(crate) fn names_write(&self) -> bool
        ensures { result ≡ names_write self.now }
    {
        match self {
            Phase::TurnedAway { names_write, .. } => *names_write,
            Phase::Address { instruction, .. } => is_write(*instruction),
            Phase::WritingStatus { .. }
            | Phase::WritingPaged(_)
            | Phase::WritingDirect(_)
            | Phase::Frame { .. }
            | Phase::FrameTooLong => true,
            _ => false,
        }
    }
}
