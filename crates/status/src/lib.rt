// The status byte: put together when the status is read, and taken apart when it is written.
//
//     status::assemble::<Nv>(0x04, true, false, true)     0x14
//     status::update::<Nv>(0xFF)                          0x6C
#![tactic(auto)]

ghost use Rattle.std.specs.Prelude.{◌≡◌, ◌+◌, cond, if◌then◌else◌, bit_and};
ghost use Rattle.dialect.specs.Facts.{Within};
ghost use Rattle.status.specs.Status.{status_byte, mask_bits, Apart, BitsNeverCollide};

use dialect::Dialect;

// The byte that reading the status drives: the mask bits of `status_bits`, the fail bit if the fail mark is set, 2 if the
// latch is set, and 1 unless the part is idle. In a part the status bits are within the mask, so none is lost.
pub fn assemble<D: Dialect>(status_bits: u8, fail_mark: bool, latch: bool, idle: bool) -> u8
    ensures { result ≡ status_byte D.facts (mask_bits D.facts status_bits) fail_mark latch idle }
{
    let kept = update::<D>(status_bits);
    let fail = if fail_mark { D::fail_bit() } else { 0 };
    join(kept, fail, latch, idle)
}

// The status bits after `byte` is written: its mask bits.
pub fn update<D: Dialect>(byte: u8) -> u8
    ensures value { result ≡ mask_bits D.facts byte }
    ensures within { Within D.facts result }
{
    byte & D::mask()
}

// Holds the law that no two parts of a status byte have a bit in common, in any dialect.
pub fn bits_never_collide()
    ensures { BitsNeverCollide }
{}

// Joined bit by bit, parts that have no bit in common are their sum.
fn join(status_bits: u8, fail: u8, latch: bool, idle: bool) -> u8
    requires { Apart status_bits fail }
    ensures { result ≡ status_bits + fail + (if latch then 2 else 0) + (if idle then 0 else 1) }
{
    status_bits | fail | (u8::from(latch) << 1 | u8::from(!idle))
}
