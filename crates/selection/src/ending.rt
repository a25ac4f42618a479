// What the release of a selection answers and does.
ghost use Rattle.std.specs.Prelude.{◌≡◌, ◌+◌, ◌≤◌, cond, length, if◌then◌else◌, Some, None, nat_eq};
ghost use Rattle.refusal.specs.declared.Refusal.TheVariants.{WrongLength, LeftoverClocks};
ghost use Rattle.rules.specs.Frame.{frame_place, frame_data, frame_sum};
ghost use Rattle.rules.specs.Release.{effect};
ghost use Rattle.rules.specs.State.{unselected};
ghost use Rattle.selection.specs.View.{kind, kind_for, state_of, Fits, ends, ends_paged, ends_frame, Ends, Denied, refusal_of};

use crate::address::modulo;
use crate::control::Control;
use crate::opcode::is_write;
use crate::phase::Phase;
use crate::reading::address_bytes;
use crate::write::{accept, fits, unblocked};
use crate::writing::PageWrite;
use cells::Cells;
use dialect::{Dialect, Instruction};
use refusal::Refusal;
use rules::{Activity, Power};

impl Control {
    // Enable sets the latch and disable clears it. Store starts storing at page 0. Recall clears the written mark and starts
    // recalling at page 0.
    fn obey(&mut self, instruction: Instruction)
        ensures { state_of self.new unselected ≡ effect instruction (state_of self.old unselected) }
    {
        match instruction {
            Instruction::Enable => self.latch = true,
            Instruction::Disable => self.latch = false,
            Instruction::Store => self.power = Power::On(Activity::Storing(0)),
            Instruction::Recall => {
                self.power = Power::On(Activity::Recalling(0));
                self.written = false;
            }
            _ => {}
        }
    }
}

// 15 if the bytes are too few or too many, then 16 if clocks are left over.
fn whole(right_length: bool, clocks: u8) -> Result<(), Refusal>
    ensures { refusal_of result ≡ cond right_length (if nat_eq clocks 0 then None else Some LeftoverClocks) (Some WrongLength) }
{
    if !right_length {
        return Err(Refusal::WrongLength);
    }
    if clocks != 0 {
        return Err(Refusal::LeftoverClocks);
    }
    Ok(())
}

// The release of a whole paged write: it accepts what its buffer holds, and 14 says that some data fell in a protected page.
fn end_paged<D: Dialect, C: Cells>(
    control: &mut Control,
    write: &PageWrite,
    cells: &mut C,
) -> Result<(), Refusal>
    ensures { Ends D.facts C.Cells (ends_paged (kind D.facts C.Cells cells.old) control.old write.now) cells.old result control.new cells.new }
{
    // The release of any write cleared it before; this function's own promise tells it too.
    control.latch = false;
    if write.held.is_empty() {
        return unblocked(write.blocked);
    }
    let held = write.held.as_slice();
    accept::<D, C>(cells, control.status_bits, write.page, write.first, held)?;
    control.written = true;
    unblocked(write.blocked)
}

// How many bytes a secure frame has: those of the address, 64 of data and 2 of the sum.
pub(crate) fn frame_length<D: Dialect>() -> usize
    ensures { result ≡ D.facts.address_bytes + 66 }
{
    D::address_length() + 66
}

// A secure frame, taken apart: the address modulo the size, the data, and the sum as sent.
struct Frame<'a> {
    place: u32,
    data: &'a [u8],
    sum: u16,
}

// Takes a frame of the right length apart.
fn parts<D: Dialect>(frame: &[u8], size: u32) -> Frame<'_>
    requires { (length frame.now ≡ D.facts.address_bytes + 66) × (64 ≤ size) }
    ensures place { result.place ≡ frame_place (kind_for D.facts size) frame.now }
    ensures data { result.«data».now ≡ frame_data (kind_for D.facts size) frame.now }
    ensures sum { result.sum ≡ frame_sum (kind_for D.facts size) frame.now }
{
    let (address, rest) = frame.split_at(D::address_length());
    let (data, sum) = rest.split_at(64);
    Frame {
        place: modulo(address, size),
        data,
        sum: u16::from_be_bytes([sum[0], sum[1]]),
    }
}

// The release of a whole secure frame. A wrong sum is refused with 17 and sets the fail mark. A right frame is placed as a
// write that rolls over, unless its page is protected, which is refused with 14; success clears the fail mark.
fn end_frame<D: Dialect, C: Cells>(
    control: &mut Control,
    frame: &[u8],
    cells: &mut C,
    size: u32,
) -> Result<(), Refusal>
    requires { (length frame.now ≡ D.facts.address_bytes + 66) × Fits size (C.site cells.old) }
    ensures { Ends D.facts C.Cells (ends_frame (kind D.facts C.Cells cells.old) control.old frame.now) cells.old result control.new cells.new }
{
    // The release of any write cleared it before; this function's own promise tells it too.
    control.latch = false;
    let Frame { place, data, sum } = parts::<D>(frame, size);
    if crc::page_sum(address_bytes::<D>(), size, place, data) != sum {
        control.failed = true;
        return Err(Refusal::WrongSum);
    }
    let offset = (place % 64) as u8;
    accept::<D, C>(cells, control.status_bits, place / 64, offset, data)?;
    control.failed = false;
    control.written = true;
    Ok(())
}

// Ends a selection: what its release answers, and what it does to the control and the cells. A size that is not
// that of the cells, or is that of a dead array, is refused as dead. The size is tested here, so that nothing is
// asked of the caller.
pub fn end<D: Dialect, C: Cells>(
    control: &mut Control,
    phase: &Phase,
    cells: &mut C,
    size: u32,
    clocks: u8,
) -> Result<(), Refusal>
    ensures fits { Fits size (C.site cells.old) → Ends D.facts C.Cells (ends (kind D.facts C.Cells cells.old) control.old phase.now clocks) cells.old result control.new cells.new }
    ensures misfit { (Fits size (C.site cells.old) → ⊥) → Denied C.Cells result control.old control.new cells.old cells.new }
{
    if !fits(cells, size) {
        return Err(Refusal::Dead);
    }
    end_sized::<D, C>(control, phase, cells, size, clocks)
}

// The same for a size that is known to be that of the cells.
fn end_sized<D: Dialect, C: Cells>(
    control: &mut Control,
    phase: &Phase,
    cells: &mut C,
    size: u32,
    clocks: u8,
) -> Result<(), Refusal>
    requires { Fits size (C.site cells.old) }
    ensures { Ends D.facts C.Cells (ends (kind D.facts C.Cells cells.old) control.old phase.now clocks) cells.old result control.new cells.new }
{
    control.latch &= !phase.names_write();
    match phase {
        Phase::Opcode => Err(Refusal::NoByte),
        Phase::TurnedAway { refusal, .. } => Err(*refusal),
        Phase::Command {
            instruction,
            followed,
        } => {
            whole(!*followed, clocks)?;
            control.obey(*instruction);
            Ok(())
        }
        Phase::ReadingStatus | Phase::Reading { .. } | Phase::ReadingSecure { .. } => Ok(()),
        Phase::WritingStatus { count, first } => {
            whole(*count == 1, clocks)?;
            control.status_bits = status::update::<D>(*first);
            Ok(())
        }
        Phase::Address { instruction, .. } if !is_write(*instruction) => Ok(()),
        Phase::Address { .. } | Phase::FrameTooLong => Err(Refusal::WrongLength),
        Phase::WritingPaged(write) => {
            whole(write.any, clocks)?;
            end_paged::<D, C>(control, write, cells)
        }
        Phase::WritingDirect(write) => {
            whole(write.any, clocks)?;
            unblocked(write.blocked)
        }
        Phase::Frame { held } => {
            whole(held.len() == frame_length::<D>(), clocks)?;
            end_frame::<D, C>(control, held.as_slice(), cells, size)
        }
    }
}
