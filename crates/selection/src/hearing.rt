// What a byte does in a selection.
ghost use Rattle.std.specs.Prelude.{◌≡◌};
ghost use Rattle.rules.specs.Byte.{is_idle};
ghost use Rattle.status.specs.Status.{status_byte, mask_bits};
ghost use Rattle.selection.specs.View.{kind, Fits, hears, Hears, Ignored};

use crate::address::{address, locate};
use crate::control::Control;
use crate::ending::frame_length;
use crate::opcode::open;
use crate::phase::Phase;
use crate::reading::{drive_secure, read};
use crate::write::fits;
use crate::writing::next;
use cells::Cells;
use dialect::Dialect;
use rules::Activity;

// What came of a byte: the byte driven back, and whether anything was put.
#[derive(Default)]
pub struct Heard {
    pub driven: Option<u8>,
    pub wrote: bool,
}

// The phase takes one unheld byte and moves on in place. A size that is not that of the cells, or is that of a dead array,
// has nothing heard. The size is tested here, so that nothing is asked of the caller.
pub fn hear<D: Dialect, C: Cells>(
    control: &Control,
    activity: Activity,
    phase: &mut Phase,
    cells: &mut C,
    size: u32,
    value: u8,
) -> Heard
    ensures fits { Fits size (C.site cells.old) → Hears D.facts C.Cells (hears (kind D.facts C.Cells cells.old) control.now activity phase.old value) cells.old phase.new result cells.new }
    ensures misfit { (Fits size (C.site cells.old) → ⊥) → Ignored C.Cells phase.old phase.new result cells.old cells.new }
{
    if !fits(cells, size) {
        return Heard::default();
    }
    hear_sized::<D, C>(control, activity, phase, cells, size, value)
}

// The same for a size that is known to be that of the cells.
fn hear_sized<D: Dialect, C: Cells>(
    control: &Control,
    activity: Activity,
    phase: &mut Phase,
    cells: &mut C,
    size: u32,
    value: u8,
) -> Heard
    requires { Fits size (C.site cells.old) }
    ensures { Hears D.facts C.Cells (hears (kind D.facts C.Cells cells.old) control.now activity phase.old value) cells.old phase.new result cells.new }
{
    let mut heard = Heard::default();
    match (&mut *phase, value) {
        (Phase::Opcode, opcode) => *phase = open::<D>(activity, control.latch, opcode),
        (Phase::TurnedAway { .. }, _) | (Phase::FrameTooLong, _) => {}
        (Phase::Command { followed, .. }, _) => *followed = true,
        (Phase::ReadingStatus, _) => heard.driven = Some(status_now::<D>(control, activity)),
        (Phase::WritingStatus { count, first }, byte) => {
            if *count == 0 {
                *first = byte;
                *count = 1;
            } else {
                *count = 2;
            }
        }
        (Phase::Address { held, .. }, byte) if held.len() + 1 < D::address_length() => {
            held.push(byte);
        }
        (Phase::Address { instruction, held }, last) => {
            let at = address(held.as_slice(), last, size);
            *phase = locate::<D>(*instruction, at, size);
        }
        (Phase::Reading { at }, _) => {
            heard.driven = Some(read(cells, *at as usize));
            *at = next(*at, size);
        }
        (Phase::ReadingSecure { from, driven }, _) => {
            heard.driven = drive_secure::<D, C>(cells, *from, *driven, size);
            *driven = (*driven).min(65) + 1;
        }
        // Two arms that read alike, since one pattern cannot bind a write of either type.
        (Phase::WritingPaged(write), byte) => {
            heard.wrote = write.take::<D, C>(cells, control.status_bits, size, byte);
        }
        (Phase::WritingDirect(write), byte) => {
            heard.wrote = write.take::<D, C>(cells, control.status_bits, size, byte);
        }
        (Phase::Frame { held }, byte) if held.len() < frame_length::<D>() => held.push(byte),
        (Phase::Frame { .. }, _) => *phase = Phase::FrameTooLong,
    }
    heard
}

// The status byte of this moment.
fn status_now<D: Dialect>(control: &Control, activity: Activity) -> u8
    ensures { result ≡ status_byte D.facts (mask_bits D.facts control.now.status_bits) control.now.failed control.now.latch (is_idle activity) }
{
    let idle = activity == Activity::Idle;
    status::assemble::<D>(control.status_bits, control.failed, control.latch, idle)
}
