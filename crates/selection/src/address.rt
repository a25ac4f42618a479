// Addresses: bytes, highest first, modulo the array's size.
ghost use Rattle.std.specs.Prelude.{◌≡◌, ◌+◌, ◌*◌, ◌%◌, ◌<◌, [], ◌∷◌, ◌++◌};
ghost use Rattle.rules.specs.Frame.{number};
ghost use Rattle.rules.specs.Byte.{located};
ghost use Rattle.selection.specs.View.{phase_of, kind_for};

use crate::held::Held;
use crate::phase::Phase;
use crate::writing::{DirectWrite, PageWrite};
use dialect::{Dialect, Instruction};

// One byte more behind a number, modulo the size.
fn one_more(so_far: u32, byte: u8, size: u32) -> u32
    requires { 0 < size }
    ensures { result ≡ (so_far * 256 + byte) % size }
{
    ((u64::from(so_far) * 256 + u64::from(byte)) % u64::from(size)) as u32
}

// The number of some bytes, highest first, modulo the size.
pub(crate) fn modulo(bytes: &[u8], size: u32) -> u32
    requires { 0 < size }
    ensures { result ≡ number bytes.now % size }
{
    // A loop and not a `fold`: the proof does not find what its closure answers.
    let mut so_far = 0;
    for byte in bytes {
        so_far = one_more(so_far, *byte, size);
    }
    so_far
}

// The address that some bytes and a last one write, modulo the size.
pub(crate) fn address(bytes: &[u8], last: u8, size: u32) -> u32
    requires { 0 < size }
    ensures { result ≡ number (bytes.now ++ last ∷ []) % size }
{
    one_more(modulo(bytes, size), last, size)
}

// The phase behind a complete address.
pub(crate) fn locate<D: Dialect>(instruction: Instruction, at: u32, size: u32) -> Phase
    ensures { phase_of result ≡ located (kind_for D.facts size) instruction at }
{
    match instruction {
        Instruction::Write if D::is_direct() => Phase::WritingDirect(DirectWrite {
            at,
            blocked: false,
            any: false,
        }),
        Instruction::Write => Phase::WritingPaged(PageWrite {
            page: at / 64,
            first: (at % 64) as u8,
            held: Held::new(),
            blocked: false,
            any: false,
        }),
        Instruction::SecureRead => Phase::ReadingSecure {
            from: at,
            driven: 0,
        },
        _ => Phase::Reading { at },
    }
}
