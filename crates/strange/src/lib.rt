// A lawful dialect that no maker sells, and the unlawful ones that the laws shut out: a test of the trait `Dialect`.
#![tactic(auto)]

ghost use Rattle.std.specs.Prelude.{refl};
ghost use Rattle.strange.specs.Strange.{strange, strange_is_lawful};
ghost use Rattle.strange.specs.Unlawful.{ShutOut};

use dialect::{Dialect, Instruction};

#[derive(Clone, Copy)]
pub struct Strange;

impl Dialect for Strange {
    ghost facts = { strange };

    const ADDRESS_BYTES: usize = 2;

    ghost ADDRESS_BYTES = { strange.address_bytes };

    const LARGEST: usize = 65_536;

    ghost LARGEST = { strange.largest };

    ghost address_bytes_is = { refl };

    ghost largest_is = { refl };

    ghost lawful = { strange_is_lawful };

    fn decode(opcode: u8) -> Option<Instruction> {
        match opcode {
            0xE0 => Some(Instruction::Enable),
            0xE1 => Some(Instruction::ReadStatus),
            0xE2 => Some(Instruction::WriteStatus),
            0x03 | 0x0B => Some(Instruction::Read),
            0x02 => Some(Instruction::Write),
            0xFE => Some(Instruction::Store),
            0xFF => Some(Instruction::Recall),
            _ => None,
        }
    }

    fn mask() -> u8 {
        0x80
    }

    fn fail_bit() -> u8 {
        0
    }

    fn protected(status_bits: u8, size: usize) -> (usize, usize) {
        match status_bits {
            0x00 => (0, 0),
            0x80 => (0, size),
            _ => (size, 0),
        }
    }

    fn is_direct() -> bool {
        true
    }

    fn runs_on(_status_bits: u8) -> bool {
        true
    }

    fn power_store(status_bits: u8) -> bool {
        status_bits >= 0x80
    }
}

// Holds that no dialect breaks one of these laws.
pub fn unlawful_are_shut_out()
    ensures { ShutOut }
{}

#[cfg(test)]
mod tests {
    use super::*;

    #[test]
    fn what_serves_every_dialect_serves_this_one(rt: HostRuntime) {
        assert_eq!(rt; Strange::decode(0x03), Some(Instruction::Read));
        assert_eq!(rt; Strange::decode(0x0B), Some(Instruction::Read));
        assert!(rt; Strange::is_alive(65_536));
        assert!(rt; !Strange::is_alive(131_072));
        assert_eq!(rt; status::update::<Strange>(0xFF), 0x80);
        // 80h, no fail bit to show, 2 for the latch, 1 for being busy
        assert_eq!(rt; status::assemble::<Strange>(0x80, true, true, false), 0x83);
    }
}
