// The first byte of a selection: the opcode, and whether it is turned away.
ghost use Rattle.std.specs.Prelude.{◌≡◌};
ghost use Rattle.rules.specs.Opcode.{is_write, begin, opened, named};
ghost use Rattle.rules.specs.State.{turned_away};
ghost use Rattle.refusal.specs.declared.Refusal.TheVariants.{Busy};
ghost use Rattle.selection.specs.View.{phase_of};

use crate::held::Held;
use crate::phase::Phase;
use dialect::{Dialect, Instruction};
use refusal::Refusal;
use rules::Activity;

// The writes need the latch, and their release clears it.
pub(crate) fn is_write(instruction: Instruction) -> bool
    ensures { result ≡ is_write instruction }
{
    matches!(
        instruction,
        Instruction::WriteStatus | Instruction::Write | Instruction::SecureWrite
    )
}

// The phase in which an accepted instruction begins.
fn begin(instruction: Instruction) -> Phase
    ensures { phase_of result ≡ begin instruction }
{
    match instruction {
        Instruction::ReadStatus => Phase::ReadingStatus,
        Instruction::WriteStatus => Phase::WritingStatus { count: 0, first: 0 },
        Instruction::Read | Instruction::Write | Instruction::SecureRead => Phase::Address {
            instruction,
            held: Held::new(),
        },
        Instruction::SecureWrite => Phase::Frame { held: Held::new() },
        _ => Phase::Command {
            instruction,
            followed: false,
        },
    }
}

// Turned away because the part is busy.
fn busy(instruction: Option<Instruction>) -> Phase
    ensures { phase_of result ≡ turned_away Busy (named is_write instruction) }
{
    Phase::TurnedAway {
        refusal: Refusal::Busy,
        names_write: instruction.is_some_and(is_write),
    }
}

// Decodes the opcode: 11 if the part is busy, then 12 if it names no instruction, then 13 if it names a write and the latch
// is clear.
pub(crate) fn open<D: Dialect>(activity: Activity, latch: bool, opcode: u8) -> Phase
    ensures { phase_of result ≡ opened activity latch (D.facts.decode opcode) }
{
    let named = D::decode(opcode);
    match (activity, named) {
        (Activity::Waking(_), _) => busy(named),
        (Activity::Storing(_) | Activity::Recalling(_), _)
            if named != Some(Instruction::ReadStatus) => { busy(named) }
        (_, None) => Phase::TurnedAway {
            refusal: Refusal::UnknownOpcode,
            names_write: false,
        },
        (_, Some(i)) if is_write(i) && !latch => Phase::TurnedAway {
            refusal: Refusal::NotEnabled,
            names_write: true,
        },
        (_, Some(i)) => begin(i),
    }
}
