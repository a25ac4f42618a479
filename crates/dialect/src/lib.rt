// The dialects: what a serial memory part fixes about its opcodes, its status bits and its protected range.
//
//     Nv::decode(0x03)                  Some(Instruction::Read)
//     Mr::protected(0x14, 131_072)      (98_304, 131_072)
//     Nv::is_alive(65_536)              false
//
// `specs/Facts.antt` has the facts and their laws, `specs/Nv.antt` and `specs/Mr.antt` the two delivered dialects.
#![tactic(auto)]

ghost use Rattle.std.specs.Prelude.{◌≡◌, ℕ, ◌/◌, ◌%◌, ◌^◌, ◌<◌, Decides};
ghost use Rattle.dialect.specs.Facts.{Facts, Lawful, Alive, bit};

mod mram;
mod nvsram;

pub use mram::Mr;
pub use nvsram::Nv;

// What an opcode can name.
#[derive(Clone, Copy, PartialEq, Eq, Debug)]
pub enum Instruction {
    Enable,
    Disable,
    ReadStatus,
    WriteStatus,
    Read,
    Write,
    SecureRead,
    SecureWrite,
    Store,
    Recall,
    Nothing,
}

// A dialect answers its facts, for every input, and changes nothing. Its status bits, R, are those that a status write set;
// a size is that of a cell array, in bytes.
//
// Each constant stands for contracts too, as a ghost member of its name, and the check proves the two equal.
pub trait Dialect {
    ghost facts: { Facts };

    // How many bytes an address is sent in.
    const ADDRESS_BYTES: usize;

    ghost ADDRESS_BYTES: { ℕ };

    // The largest size at which a part is alive.
    const LARGEST: usize;

    ghost LARGEST: { ℕ };

    // Answers ADDRESS_BYTES.
    fn address_length() -> usize
        ensures { result ≡ facts.address_bytes }
    {
        Self::ADDRESS_BYTES
    }

    // Answers LARGEST.
    fn largest_size() -> usize
        ensures { result ≡ facts.largest }
    {
        Self::LARGEST
    }

    // The instruction that an opcode names, or none.
    fn decode(opcode: u8) -> Option<Instruction>
        ensures { result ≡ facts.decode opcode };

    // The bits that a status write sets.
    fn mask() -> u8
        ensures { result ≡ facts.mask };

    // The bit by which the status shows the fail mark; 0 where there is none. That needs no `Option`: as a mask, 0 is no bit.
    fn fail_bit() -> u8
        ensures { result ≡ facts.fail_bit };

    // The protected range: its first address, and its end, the address behind its last.
    fn protected(status_bits: u8, size: usize) -> (usize, usize)
        ensures { result ≡ facts.range status_bits size };

    // Whether a write puts each byte as it arrives. Else it is paged.
    fn is_direct() -> bool
        ensures { result ≡ facts.direct };

    // Whether a paged write goes on at the next page. Else it rolls over in its page.
    fn runs_on(status_bits: u8) -> bool
        ensures { result ≡ facts.runs_on status_bits };

    // Whether PowerStore is on: a charged part that loses power while idle keeps what was written.
    fn power_store(status_bits: u8) -> bool
        ensures { result ≡ facts.power_store status_bits };

    // Whether a part over so many bytes is alive. Else it is dead, and refuses every call.
    fn is_alive(size: usize) -> bool
        ensures { Decides result (Alive facts size) }
    {
        (256..=Self::LARGEST).contains(&size) && powers::is_power_of_two(size)
    }

    // The constants are facts of the dialect.
    ghost address_bytes_is: { ADDRESS_BYTES ≡ facts.address_bytes };

    ghost largest_is: { LARGEST ≡ facts.largest };

    ghost lawful: { Lawful facts };
}

// The number that some bits of a byte make: so many of them, from a place on, which is counted from 0, the lowest.
fn bits(byte: u8, place: u8, count: u8) -> u8
    requires place { place < 8 }
    requires count { count < 8 }
    ensures { result ≡ byte / 2 ^ place % 2 ^ count }
{
    byte >> place & ((1 << count) - 1)
}

// Whether the bit at a place is set.
fn is_set(byte: u8, place: u8) -> bool
    requires { place < 8 }
    ensures { result ≡ bit place byte }
{
    bits(byte, place, 1) == 1
}
