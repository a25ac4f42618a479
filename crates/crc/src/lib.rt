// The 16-bit sum of the secure frames.
//
//     let sum = crc::sum(b"123456789");                  // 29B1h
//     let same = crc::update(crc::update(crc::START, b"1234"), b"56789");
//
// It is the cyclic redundancy check with the polynomial 1021h, started at FFFFh, fed highest bit first, with no final
// change. specs/Sum.antt defines it bit by bit; the functions here step by half bytes over a table and are proved to
// answer the same, for every message and from every register.
#![tactic(auto)]

ghost use Rattle.std.specs.Prelude.{◌≡◌, ◌<◌};
ghost use Rattle.crc.specs.Sum.{after_bits, bits, after_message, start, sum_of};
ghost use Rattle.crc.specs.Transfer.{highest_first, page_sum, count_of, Counts};

// The register before the first byte.
pub const START: u16 = 0xFFFF;

// What four bits take off the register: entry i is i times the polynomial, without carries.
const TABLE: [u16; 16] = [
    0x0000, 0x1021, 0x2042, 0x3063, 0x4084, 0x50A5, 0x60C6, 0x70E7, 0x8108, 0x9129, 0xA14A, 0xB16B,
    0xC18C, 0xD1AD, 0xE1CE, 0xF1EF,
];

// The register after four bits more.
fn after_half_byte(register: u16, half: u16) -> u16
    requires { half < 16 }
    ensures { result ≡ after_bits register (bits 4 half) }
{
    (register << 4) ^ TABLE[usize::from((register >> 12) ^ half)]
}

// The register after a byte more, its high half first.
fn after_byte(register: u16, byte: u8) -> u16
    ensures { result ≡ after_bits register (bits 8 byte) }
{
    let (high, low) = (u16::from(byte / 16), u16::from(byte % 16));
    after_half_byte(after_half_byte(register, high), low)
}

// The register after a message more. A sum over several pieces is fed piece by piece, starting from START.
pub fn update(register: u16, message: &[u8]) -> u16
    ensures { result ≡ after_message register message.now }
{
    message
        .iter()
        .fold(register, |now, byte| after_byte(now, *byte))
}

// The sum of a message.
pub fn sum(message: &[u8]) -> u16
    ensures { result ≡ sum_of message.now }
{
    update(START, message)
}

// How many bytes an address has on the bus.
#[derive(Clone, Copy, PartialEq, Eq, Debug)]
pub enum AddressBytes {
    Two = 2,
    Three = 3,
}

impl AddressBytes {
    pub fn count(self) -> usize
        ensures { result ≡ count_of self }
    {
        self as usize
    }
}

// A number of bytes that no address has.
#[derive(Clone, Copy, PartialEq, Eq, Debug)]
pub struct NotTwoOrThree(pub u32);

impl TryFrom<u32> for AddressBytes {
    type Error = NotTwoOrThree;

    ghost try_from_gives = { Counts };

    fn try_from(count: u32) -> Result<Self, NotTwoOrThree> {
        match count {
            2 => Ok(AddressBytes::Two),
            3 => Ok(AddressBytes::Three),
            _ => Err(NotTwoOrThree(count)),
        }
    }
}

// The register after an address, highest byte first.
fn after_address(address_bytes: AddressBytes, address: u32) -> u16
    ensures { result ≡ after_message start (highest_first (count_of address_bytes) address) }
{
    let bytes = address.to_be_bytes();
    update(START, &bytes[4 - address_bytes.count()..])
}

// The sum of a page transfer: it covers the address modulo the array's size, highest byte first, and then the data bytes
// as sent. An array of size 0 leaves the address as it is.
pub fn page_sum(address_bytes: AddressBytes, size: u32, address: u32, sent: &[u8]) -> u16
    ensures { result ≡ page_sum (count_of address_bytes) size address sent.now }
{
    let place = address.checked_rem(size).unwrap_or(address);
    update(after_address(address_bytes, place), sent)
}
