// Secure frames captured off the bus, one on a line.
//
//     match capture::examine(line) {
//         Ok(verdict) => { /* verdict.right, verdict.page, .. */ }
//         Err(why) => { /* the line is no frame */ }
//     }
//
// A line has the array's size and the number of address bytes in decimal, and then the frame's bytes as pairs of
// hexadecimal digits. specs/Frame.antt says what is read from it, in the same steps and names.
#![tactic(auto)]

ghost use Rattle.std.specs.Prelude.{◌≡◌, ℕ, ◌%◌, ◌^◌};
ghost use Rattle.crc.specs.Transfer.{count_of};
ghost use Rattle.fields.specs.Fields.{seen, capped};
ghost use Rattle.capture.specs.Frame.{size_of, read_header, reading, verdict, examined};

use crc::AddressBytes;
use fields::Unreadable;

// A secure frame, with what must be known of the array to check it.
#[derive(Clone, Copy, PartialEq, Eq, Debug)]
pub struct Frame {
    // How many bytes the array has.
    pub size: u32,
    // How many bytes the frame's address has.
    pub address_bytes: AddressBytes,
    // The address as sent; bits that do not choose among the array's bytes may be set.
    pub address: u32,
    // The data bytes as sent.
    pub sent: [u8; 64],
    // The sum as sent.
    pub sum: u16,
}

// What is to be said of a frame.
#[derive(Clone, Copy, PartialEq, Eq, Debug)]
pub struct Verdict {
    // Whether the sum sent is the sum worked out: judged once, so that nobody who prints a verdict judges again.
    pub right: bool,
    // The page that the address chooses, and the place in it.
    pub page: u32,
    pub offset: u32,
    pub sum_sent: u16,
    pub sum_worked_out: u16,
}

// As many bytes as an address can choose among.
fn reach(address_bytes: AddressBytes) -> u32
    ensures { result ≡ 256 ^ count_of address_bytes }
{
    match address_bytes {
        AddressBytes::Two => 65_536,
        AddressBytes::Three => 16_777_216,
    }
}

fn choose_size(address_bytes: AddressBytes, number: u32) -> Result<u32, Unreadable>
    ensures { (n : ℕ) → number ≡ capped n → result ≡ size_of address_bytes n }
{
    if (256..=reach(address_bytes)).contains(&number) && number.is_power_of_two() {
        Ok(number)
    } else {
        Err(Unreadable::Size)
    }
}

// What must be known of the array to read a frame and check it.
#[derive(Clone, Copy)]
struct Header {
    size: u32,
    address_bytes: AddressBytes,
}

#[tactic(auto, unfolding(crate::specs::Frame::read_header))]
fn read_header(line: &[u8]) -> Result<(Header, &[u8]), Unreadable>
    ensures { seen result ≡ read_header line.now }
{
    fields::expect_something(line)?;
    let (number, text) = fields::read_number(line, Unreadable::Size)?;
    let (count, text) = fields::read_number(text, Unreadable::AddressBytes)?;
    let address_bytes = AddressBytes::try_from(count)?;
    let size = choose_size(address_bytes, number)?;
    let header = Header {
        size,
        address_bytes,
    };
    Ok((header, text))
}

// Reads the frame on a line. Refuses a line that is not written as specs/Frame.antt says, with the first reason in reading
// order. Changes nothing.
#[tactic(auto, unfolding(crate::specs::Frame::reading))]
pub fn read_frame(line: &[u8]) -> Result<Frame, Unreadable>
    ensures { result ≡ reading line.now }
{
    let (header, text) = read_header(line)?;
    let (address, text) = fields::read_address(text, header.address_bytes)?;
    let (sent, text) = fields::read_page(text)?;
    let (sum, text) = fields::read_sum(text)?;
    fields::expect_nothing(text)?;
    Ok(Frame {
        size: header.size,
        address_bytes: header.address_bytes,
        address,
        sent,
        sum,
    })
}

// Says whether a frame is right, and what its address chooses; an array of size 0 leaves the address as it is. Refuses
// nothing and changes nothing.
pub fn judge(frame: &Frame) -> Verdict
    ensures { result ≡ verdict frame.now }
{
    let Frame { size, address, .. } = *frame;
    let place = address.checked_rem(size).unwrap_or(address);
    let sum = crc::page_sum(frame.address_bytes, size, address, &frame.sent);
    Verdict {
        right: sum == frame.sum,
        page: place / 64,
        offset: place % 64,
        sum_sent: frame.sum,
        sum_worked_out: sum,
    }
}

// Reads the frame on a line and judges it. Refuses what `read_frame` refuses. Changes nothing.
pub fn examine(line: &[u8]) -> Result<Verdict, Unreadable>
    ensures { result ≡ examined line.now }
{
    let frame = read_frame(line)?;
    Ok(judge(&frame))
}
