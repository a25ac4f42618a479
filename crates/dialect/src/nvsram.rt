// Dialect nv, of the 256 kbit nvSRAM.
ghost use Rattle.std.specs.Prelude.{refl};
ghost use Rattle.dialect.specs.Nv.{nv, nv_is_lawful};

use super::{Dialect, Instruction, bits, is_set};

#[derive(Clone, Copy)]
pub struct Nv;

impl Dialect for Nv {
    ghost facts = { nv };

    const ADDRESS_BYTES: usize = 2;

    ghost ADDRESS_BYTES = { nv.address_bytes };

    const LARGEST: usize = 32_768;

    ghost LARGEST = { nv.largest };

    ghost address_bytes_is = { refl };

    ghost largest_is = { refl };

    ghost lawful = { nv_is_lawful };

    fn decode(opcode: u8) -> Option<Instruction> {
        match opcode {
            0x06 => Some(Instruction::Enable),
            0x04 => Some(Instruction::Disable),
            0x05 => Some(Instruction::ReadStatus),
            0x01 => Some(Instruction::WriteStatus),
            0x03 => Some(Instruction::Read),
            0x02 => Some(Instruction::Write),
            0x13 => Some(Instruction::SecureRead),
            0x12 => Some(Instruction::SecureWrite),
            0x3C => Some(Instruction::Store),
            0x60 => Some(Instruction::Recall),
            _ => None,
        }
    }

    fn mask() -> u8 {
        0x6C
    }

    fn fail_bit() -> u8 {
        0x10
    }

    // Bits 3 and 2 are a level, and what it protects lies at the top.
    fn protected(status_bits: u8, size: usize) -> (usize, usize) {
        let bytes = match bits(status_bits, 2, 2) {
            0 => 0,
            1 => size >> 2,
            2 => size >> 1,
            _ => size,
        };
        (size - bytes, size)
    }

    fn is_direct() -> bool {
        false
    }

    fn runs_on(status_bits: u8) -> bool {
        is_set(status_bits, 5)
    }

    fn power_store(status_bits: u8) -> bool {
        !is_set(status_bits, 6)
    }
}
