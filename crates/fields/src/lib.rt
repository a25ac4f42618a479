// The fields of a captured line: blanks, decimal numbers, and bytes as pairs of hexadecimal digits.
//
//     let (number, text) = fields::read_number(b"256 2 0040", Unreadable::Size)?;      // 256, and " 2 0040" behind it
//
// Each function reads one thing from the front of a text, past the blanks before it, and answers it with the text behind
// it. specs/Fields.antt says how each is written, in the same steps and names.
#![tactic(auto)]

ghost use Rattle.std.specs.Prelude.{◌≡◌, ◌≤◌, Some, length};
ghost use Rattle.std.specs.List.{prefix_len};
ghost use Rattle.crc.specs.Transfer.{count_of};
ghost use Rattle.fields.specs.Fields.{seen, capped, with_capped, blank, hexadecimal, past_blanks};
ghost use Rattle.fields.specs.Fields.{something_on, nothing_behind, digits, begins_with_digit, ends_here};
ghost use Rattle.fields.specs.Fields.{read_number, read_byte, read_bytes, read_highest_first};
ghost use Rattle.fields.specs.Reasons.{reason};
ghost use Rattle.fields.specs.declared.Unreadable.TheVariants as unreadable;

use crc::{AddressBytes, NotTwoOrThree};
use std::error::Error;
use std::fmt;

// Why a line is unreadable: the first thing in reading order that is not as it should be.
#[derive(Clone, Copy, PartialEq, Eq, Debug)]
pub enum Unreadable {
    // Nothing but blanks.
    Empty,
    // The array's size is no decimal number, or none that is allowed.
    Size,
    // The number of address bytes is not 2 or 3.
    AddressBytes,
    // A byte has a character that is no hexadecimal digit.
    NotHexadecimal,
    // A byte's second digit is missing.
    HalfByte,
    // The line ends before the frame does.
    TooShort,
    // Something stands behind the frame.
    TooLong,
}

impl From<NotTwoOrThree> for Unreadable {
    ghost from_gives = { λ count why. why ≡ unreadable.AddressBytes };

    fn from(_count: NotTwoOrThree) -> Unreadable {
        Unreadable::AddressBytes
    }
}

impl fmt::Display for Unreadable {
    ghost output = { λ why. Some (reason why) };

    fn fmt<W: fmt::Write>(&self, f: &mut fmt::Formatter<W>) -> fmt::Result {
        f.write_str(match self {
            Unreadable::Empty => "nothing stands on the line",
            Unreadable::Size =>
                "the size is no power of two from 256 to 65536 (2 address bytes) or 16777216 (3)",
            Unreadable::AddressBytes => "the number of address bytes is not 2 or 3",
            Unreadable::NotHexadecimal => "a character is no hexadecimal digit",
            Unreadable::HalfByte => "a byte has one hexadecimal digit only",
            Unreadable::TooShort => "the line ends before the frame does",
            Unreadable::TooLong => "something stands behind the frame",
        })
    }
}

impl Error for Unreadable {}

fn is_blank(c: u8) -> bool
    ensures { result ≡ blank c }
{
    matches!(c, b' ' | b'\t' | b'\r')
}

// What each character is worth as a hexadecimal digit. A table and not `to_digit`, with which framecheck takes half as
// long again: the digits of a frame follow no rule, and the processor would guess every other branch wrong.
#[rattlefmt::skip]
static DIGITS: [Option<u8>; 256] = [
    None, None, None, None, None, None, None, None, None, None, None, None, None, None, None, None,
    None, None, None, None, None, None, None, None, None, None, None, None, None, None, None, None,
    None, None, None, None, None, None, None, None, None, None, None, None, None, None, None, None,
    Some(0), Some(1), Some(2), Some(3), Some(4), Some(5), Some(6), Some(7), Some(8), Some(9), None, None, None, None, None, None, // 0 to 9
    None, Some(10), Some(11), Some(12), Some(13), Some(14), Some(15), None, None, None, None, None, None, None, None, None, // A to F
    None, None, None, None, None, None, None, None, None, None, None, None, None, None, None, None,
    None, Some(10), Some(11), Some(12), Some(13), Some(14), Some(15), None, None, None, None, None, None, None, None, None, // a to f
    None, None, None, None, None, None, None, None, None, None, None, None, None, None, None, None,
    None, None, None, None, None, None, None, None, None, None, None, None, None, None, None, None,
    None, None, None, None, None, None, None, None, None, None, None, None, None, None, None, None,
    None, None, None, None, None, None, None, None, None, None, None, None, None, None, None, None,
    None, None, None, None, None, None, None, None, None, None, None, None, None, None, None, None,
    None, None, None, None, None, None, None, None, None, None, None, None, None, None, None, None,
    None, None, None, None, None, None, None, None, None, None, None, None, None, None, None, None,
    None, None, None, None, None, None, None, None, None, None, None, None, None, None, None, None,
    None, None, None, None, None, None, None, None, None, None, None, None, None, None, None, None,
];

fn hexadecimal_digit(c: u8, why: Unreadable) -> Result<u8, Unreadable>
    ensures { result ≡ hexadecimal why c }
{
    DIGITS[usize::from(c)].ok_or(why)
}

// How many blanks a text begins with. The library's `trim_ascii_start` would take more: line feeds and form feeds.
fn count_blanks(text: &[u8]) -> usize
    ensures value { result ≡ prefix_len blank text.now }
    ensures within { result ≤ length text.now }
{
    text.iter().take_while(|c| is_blank(**c)).count()
}

fn skip_blanks(text: &[u8]) -> &[u8]
    ensures { result.now ≡ past_blanks text.now }
{
    &text[count_blanks(text)..]
}

// Refuses a line that has nothing but blanks.
pub fn expect_something(line: &[u8]) -> Result<(), Unreadable>
    ensures { result ≡ something_on line.now }
{
    if skip_blanks(line).is_empty() {
        Err(Unreadable::Empty)
    } else {
        Ok(())
    }
}

// Refuses a text that has anything but blanks.
pub fn expect_nothing(text: &[u8]) -> Result<(), Unreadable>
    ensures { result ≡ nothing_behind text.now }
{
    if skip_blanks(text).is_empty() {
        Ok(())
    } else {
        Err(Unreadable::TooLong)
    }
}

// The digits that a text begins with, as a number, and the text behind them.
fn take_digits(text: &[u8]) -> (u32, &[u8])
    ensures value { result.0 ≡ capped (digits 0 text.now).0 }
    ensures behind { result.1.now ≡ (digits 0 text.now).1 }
{
    let mut number: u32 = 0;
    let mut rest = text;
    while let [digit @ b'0'..=b'9', tail @ ..] = rest {
        number = number
            .saturating_mul(10)
            .saturating_add(u32::from(*digit - b'0'));
        rest = tail;
    }
    (number, rest)
}

fn starts_with_digit(text: &[u8]) -> bool
    ensures { result ≡ begins_with_digit text.now }
{
    text.first().is_some_and(|c| c.is_ascii_digit())
}

fn is_at_end(text: &[u8]) -> bool
    ensures { result ≡ ends_here text.now }
{
    text.first().is_none_or(|c| is_blank(*c))
}

// Reads a decimal number, at least one digit with a blank or the end behind. Anything else is refused with the reason
// given. A number past the largest of 32 bits is answered as that.
#[tactic(auto, unfolding(crate::specs::Fields::read_number))]
pub fn read_number(text: &[u8], why: Unreadable) -> Result<(u32, &[u8]), Unreadable>
    ensures { seen result ≡ with_capped (read_number why text.now) }
{
    let text = skip_blanks(text);
    let (number, rest) = take_digits(text);
    if starts_with_digit(text) && is_at_end(rest) {
        Ok((number, rest))
    } else {
        Err(why)
    }
}

#[tactic(auto, unfolding(crate::specs::Fields::read_byte))]
fn read_byte(text: &[u8]) -> Result<(u8, &[u8]), Unreadable>
    ensures { seen result ≡ read_byte text.now }
{
    let (first, text) = skip_blanks(text).split_first().ok_or(Unreadable::TooShort)?;
    let high = hexadecimal_digit(*first, Unreadable::NotHexadecimal)?;
    let (second, text) = text.split_first().ok_or(Unreadable::HalfByte)?;
    let why = if is_blank(*second) {
        Unreadable::HalfByte
    } else {
        Unreadable::NotHexadecimal
    };
    let low = hexadecimal_digit(*second, why)?;
    Ok((high * 16 + low, text))
}

// So many bytes.
fn read_bytes<const N: usize>(text: &[u8]) -> Result<([u8; N], &[u8]), Unreadable>
    ensures { seen result ≡ read_bytes N text.now }
{
    let mut bytes = [0; N];
    let mut rest = text;
    for place in bytes.iter_mut() {
        let (byte, behind) = read_byte(rest)?;
        *place = byte;
        rest = behind;
    }
    Ok((bytes, rest))
}

// Reads an address of two or three bytes, highest first. Refuses a text that does not begin with so many bytes.
pub fn read_address(text: &[u8], address_bytes: AddressBytes) -> Result<(u32, &[u8]), Unreadable>
    ensures { seen result ≡ read_highest_first (count_of address_bytes) 0 text.now }
{
    match address_bytes {
        AddressBytes::Two => {
            let ([high, low], rest) = read_bytes::<2>(text)?;
            Ok((u32::from_be_bytes([0, 0, high, low]), rest))
        }
        AddressBytes::Three => {
            let ([high, middle, low], rest) = read_bytes::<3>(text)?;
            Ok((u32::from_be_bytes([0, high, middle, low]), rest))
        }
    }
}

// Reads a sum of two bytes, high byte first. Refuses a text that does not begin with two bytes.
pub fn read_sum(text: &[u8]) -> Result<(u16, &[u8]), Unreadable>
    ensures { seen result ≡ read_highest_first 2 0 text.now }
{
    let (bytes, rest) = read_bytes(text)?;
    Ok((u16::from_be_bytes(bytes), rest))
}

// Reads the 64 data bytes of a page. Refuses a text that does not begin with so many bytes.
pub fn read_page(text: &[u8]) -> Result<([u8; 64], &[u8]), Unreadable>
    ensures { seen result ≡ read_bytes 64 text.now }
{
    read_bytes(text)
}
