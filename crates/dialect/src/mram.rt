// Dialect mr, of the 1 Mbit MRAM.
ghost use Rattle.std.specs.Prelude.{refl};
ghost use Rattle.dialect.specs.Mr.{mr, mr_is_lawful};

use super::{Dialect, Instruction, bits, is_set};

#[derive(Clone, Copy)]
pub struct Mr;

impl Dialect for Mr {
    ghost facts = { mr };

    const ADDRESS_BYTES: usize = 3;

    ghost ADDRESS_BYTES = { mr.address_bytes };

    const LARGEST: usize = 131_072;

    ghost LARGEST = { mr.largest };

    ghost address_bytes_is = { refl };

    ghost largest_is = { refl };

    ghost lawful = { mr_is_lawful };

    fn decode(opcode: u8) -> Option<Instruction> {
        match opcode {
            0x06 => Some(Instruction::Enable),
            0x04 => Some(Instruction::Disable),
            0x05 => Some(Instruction::ReadStatus),
            0x01 => Some(Instruction::WriteStatus),
            0x03 => Some(Instruction::Read),
            0x02 => Some(Instruction::Write),
            0x00 => Some(Instruction::Nothing),
            _ => None,
        }
    }

    fn mask() -> u8 {
        0xBC
    }

    fn fail_bit() -> u8 {
        0
    }

    // Bits 4 to 2 are a level. What it protects lies at the bottom if bit 5 is set, else at the top.
    fn protected(status_bits: u8, size: usize) -> (usize, usize) {
        let bytes = match bits(status_bits, 2, 3) {
            0 => 0,
            level => size >> (7 - level),
        };
        if is_set(status_bits, 5) {
            (0, bytes)
        } else {
            (size - bytes, size)
        }
    }

    fn is_direct() -> bool {
        true
    }

    fn runs_on(_status_bits: u8) -> bool {
        false
    }

    fn power_store(_status_bits: u8) -> bool {
        true
    }
}
