// Messages with sums that are known from outside this repository, and the comparison of the library's sums with them.
//
// The catalogue of parametrised CRC algorithms lists the sum as CRC-16/IBM-3740. The other sums are those that Python's
// binascii.crc_hqx works out from a start of FFFFh.
#![tactic(auto)]

ghost use Rattle.std.specs.Prelude.{◌≡◌, Some, Decides};
ghost use Rattle.crc.specs.Sum.{sum_of};
ghost use Rattle.vectors.specs.Line.{verdict_text, comparison_text, line_text};
ghost use Rattle.vectors.specs.Message.{message};
ghost use Rattle.vectors.specs.Source.{source_text};

use figures::Sum;
use std::fmt;

// Where a known sum comes from.
#[derive(Clone, Copy, PartialEq, Eq, Debug)]
pub enum Source {
    Catalogue,
    Python,
}

impl fmt::Display for Source {
    ghost output = { λ s. Some (source_text s) };

    fn fmt<W: fmt::Write>(&self, f: &mut fmt::Formatter<W>) -> fmt::Result {
        f.write_str(match self {
            Source::Catalogue => "the catalogue",
            Source::Python => "Python",
        })
    }
}

// A message, and the sum that a source has for it. The message is the bytes in front, and behind them so many bytes that
// begin with the first and grow by a step.
#[derive(Clone, Copy, Debug)]
pub struct Vector {
    pub what: &'static str,
    pub source: Source,
    pub sum: u16,
    pub front: &'static [u8],
    pub count: usize,
    pub first: u8,
    pub step: u8,
}

#[rattlefmt::skip]
pub const VECTORS: [Vector; 18] = [
    Vector { what: "no bytes",
        source: Source::Catalogue, sum: 0xFFFF, front: b"", count: 0, first: 0, step: 0 },
    Vector { what: "the ASCII digits 123456789",
        source: Source::Catalogue, sum: 0x29B1, front: b"123456789", count: 0, first: 0, step: 0 },
    Vector { what: "the ASCII letter A",
        source: Source::Python, sum: 0xB915, front: b"A", count: 0, first: 0, step: 0 },
    Vector { what: "one byte 00h",
        source: Source::Python, sum: 0xE1F0, front: b"", count: 1, first: 0x00, step: 0 },
    Vector { what: "one byte FFh",
        source: Source::Python, sum: 0xFF00, front: b"", count: 1, first: 0xFF, step: 0 },
    Vector { what: "two bytes 00h",
        source: Source::Python, sum: 0x1D0F, front: b"", count: 2, first: 0x00, step: 0 },
    Vector { what: "two bytes FFh",
        source: Source::Python, sum: 0x0000, front: b"", count: 2, first: 0xFF, step: 0 },
    Vector { what: "64 bytes 00h",
        source: Source::Python, sum: 0xD6DA, front: b"", count: 64, first: 0x00, step: 0 },
    Vector { what: "64 bytes FFh",
        source: Source::Python, sum: 0xF154, front: b"", count: 64, first: 0xFF, step: 0 },
    Vector { what: "256 bytes from 00h to FFh",
        source: Source::Python, sum: 0x3FBD, front: b"", count: 256, first: 0x00, step: 1 },
    Vector { what: "4096 bytes 00h",
        source: Source::Python, sum: 0xEFDF, front: b"", count: 4096, first: 0x00, step: 0 },
    Vector { what: "4096 bytes FFh",
        source: Source::Python, sum: 0x0FE1, front: b"", count: 4096, first: 0xFF, step: 0 },
    Vector { what: "65536 bytes, each 7 more than the one before",
        source: Source::Python, sum: 0x9A87, front: b"", count: 65536, first: 0x00, step: 7 },
    Vector { what: "the ASCII digits 123456789 and their sum",
        source: Source::Python, sum: 0x0000, front: b"123456789\x29\xB1", count: 0, first: 0x00, step: 0 },
    Vector { what: "page transfer to 0000h of 64 bytes 00h",
        source: Source::Python, sum: 0xD5B6, front: b"\x00\x00", count: 64, first: 0x00, step: 0 },
    Vector { what: "page transfer to 0040h of the bytes 00h to 3Fh",
        source: Source::Python, sum: 0x217C, front: b"\x00\x40", count: 64, first: 0x00, step: 1 },
    Vector { what: "page transfer to 7FC0h of 64 bytes FFh",
        source: Source::Python, sum: 0xBE31, front: b"\x7F\xC0", count: 64, first: 0xFF, step: 0 },
    Vector { what: "page transfer to 012345h of 64 bytes, each 7 more than the one before",
        source: Source::Python, sum: 0x994F, front: b"\x01\x23\x45", count: 64, first: 0x00, step: 7 },
];

impl Vector {
    // The sum that the library works out for the message, fed piece by piece.
    pub fn worked_out(&self) -> u16
        ensures { result ≡ sum_of (message self.now) }
    {
        let mut register = crc::update(crc::START, self.front);
        let mut byte = self.first;
        for _ in 0..self.count {
            register = crc::update(register, &[byte]);
            byte = byte.wrapping_add(self.step);
        }
        register
    }

    // Works the sum out, once, and sets it beside the source's.
    pub fn compared(&self) -> Comparison
        ensures vector { result.vector ≡ self.now }
        ensures worked_out { result.worked_out ≡ sum_of (message self.now) }
    {
        Comparison {
            vector: *self,
            worked_out: self.worked_out(),
        }
    }

    // Whether the library and the source have the same sum.
    pub fn agrees(&self) -> bool
        ensures { Decides result (sum_of (message self.now) ≡ self.now.sum) }
    {
        self.compared().agrees()
    }
}

// A vector, and the sum that the library worked out for it. Who prints it and then asks whether the two agree has it worked out
// once.
#[derive(Clone, Copy, Debug)]
pub struct Comparison {
    pub vector: Vector,
    pub worked_out: u16,
}

impl Comparison {
    // Whether the library and the source have the same sum.
    pub fn agrees(&self) -> bool
        ensures { Decides result (self.now.worked_out ≡ self.now.vector.sum) }
    {
        self.worked_out == self.vector.sum
    }
}

// Whether the library's sum and the source's agree, in words.
fn verdict(agree: bool) -> &'static str
    ensures { result.now ≡ verdict_text agree }
{
    if agree {
        "which agrees"
    } else {
        "WHICH DIFFERS"
    }
}

// The comparison, as a line.
impl fmt::Display for Comparison {
    ghost output = { λ c. Some (comparison_text c.vector c.worked_out) };

    fn fmt<W: fmt::Write>(&self, f: &mut fmt::Formatter<W>) -> fmt::Result {
        let Vector {
            what,
            source,
            sum,
            ..
        } = self.vector;
        let worked_out = self.worked_out;
        let verdict = verdict(worked_out == sum);
        let theirs = Sum(sum);
        let ours = Sum(worked_out);
        write!(
            f,
            "{what}: {source} has {theirs}, the library {ours}, {verdict}"
        )
    }
}

// The comparison of its sum with the library's, as a line.
impl fmt::Display for Vector {
    ghost output = { λ v. Some (line_text v) };

    fn fmt<W: fmt::Write>(&self, f: &mut fmt::Formatter<W>) -> fmt::Result {
        let compared = self.compared();
        write!(f, "{compared}")
    }
}
