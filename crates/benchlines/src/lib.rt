//! What a bench prints: a line for each record, or one line for a file that does not open.
#![tactic(auto)]

ghost use Rattle.std.specs.Prelude.{◌≡◌, ◌+◌, ◌*◌, ◌≤◌, true, [], ◌∷◌, ◌++◌, length, is_ok, vec_len, vec_capacity, MatchResult};
ghost use Rattle.benchlines.specs.Lines.{driven_text, all_driven_text, result_number, to_go_text, line_start, line_text, opening_text};
ghost use Rattle.benchlines.specs.Room.{HasRoom, Added};

use figures::hexadecimal_figure;
use runfile::{FileFault, Letter};
use std::alloc::AllocError;

mod text;

// What was driven at one byte.
fn add_driven(out: &mut Vec<u8>, driven: Option<u8>)
    requires { HasRoom out.old 3 }
    ensures { Added out.old (driven_text driven) out.new }
{
    match driven {
        None => text::add_bytes(out, b" --"),
        Some(byte) => text::add_bytes(
            out,
            &[
                b' ',
                hexadecimal_figure(u16::from(byte) / 16),
                hexadecimal_figure(u16::from(byte)),
            ],
        ),
    }
}

fn add_all_driven(out: &mut Vec<u8>, driven: &[Option<u8>])
    requires { HasRoom out.old (3 * length driven.now) }
    ensures added { Added out.old (all_driven_text driven.now) out.new }
    ensures len { vec_len out.new ≡ vec_len out.old + 3 * length driven.now }
{
    for at_byte in driven {
        add_driven(out, *at_byte);
    }
}

// 0 if the record was done, else the number of its fault.
fn number_of(res: &Result<u32, FileFault>) -> u8
    ensures { result ≡ result_number res.now }
{
    match res {
        Ok(_) => 0,
        Err(fault) => fault.number(),
    }
}

// The number of the record, its letter and its result. A number has at most 20 digits.
#[tactic(auto, using(crate::proofs::Decimal::few, crate::proofs::Decimal::letter_long))]
fn add_start(out: &mut Vec<u8>, number: usize, letter: Letter, res: &Result<u32, FileFault>)
    requires { HasRoom out.old 43 }
    ensures added { Added out.old (line_start number letter res.now) out.new }
    ensures len { vec_len out.new ≤ vec_len out.old + 43 }
{
    text::add_decimal(out, number);
    text::add_bytes(out, b" ");
    text::add_bytes(out, letter.as_str().as_bytes());
    text::add_bytes(out, b" ");
    text::add_decimal(out, number_of(res));
}

// The pages to go, behind ticks that were all done, and the end of the line.
#[tactic(auto, using(crate::proofs::Decimal::few))]
fn add_end(out: &mut Vec<u8>, letter: Letter, res: &Result<u32, FileFault>)
    requires { HasRoom out.old 22 }
    ensures { Added out.old (to_go_text letter res.now ++ (10 ∷ [])) out.new }
{
    if let (Letter::K, Ok(to_go)) = (letter, res) {
        text::add_bytes(out, b" ");
        text::add_decimal(out, *to_go);
    }
    text::add_bytes(out, b"\n");
}

// Adds the line of a record: its number, its letter, what came of it, and what was driven at each of its bytes. If there is no
// memory for that, nothing is added; and that can only be if less room was left than for 65 bytes, and three for each byte driven.
pub fn add_line(
    out: &mut Vec<u8>,
    number: usize,
    letter: Letter,
    res: &Result<u32, FileFault>,
    driven: &[Option<u8>],
) -> Result<(), AllocError>
    ensures items { MatchResult result (λ _. out.new.items ≡ out.old.items ++ line_text number letter res.now driven.now) (λ _. out.new.items ≡ out.old.items) }
    ensures succeeds { HasRoom out.old (65 + 3 * length driven.now) → is_ok result ≡ true }
{
    out.reserve(65 + 3 * driven.len())?;
    add_start(out, number, letter, res);
    add_all_driven(out, driven);
    add_end(out, letter, res);
    Ok(())
}

// Adds the line of a file that does not open: the number of the fault, and its place. If there is no memory for that, nothing is
// added; and that can only be if less room was left than for 44 bytes.
#[tactic(auto, using(crate::proofs::Decimal::few))]
pub fn add_refused_opening(out: &mut Vec<u8>, fault: &FileFault) -> Result<(), AllocError>
    ensures items { MatchResult result (λ _. out.new.items ≡ out.old.items ++ opening_text fault.now) (λ _. out.new.items ≡ out.old.items) }
    ensures succeeds { HasRoom out.old 44 → is_ok result ≡ true }
{
    out.reserve(44)?;
    text::add_bytes(out, b"F ");
    text::add_decimal(out, fault.number());
    text::add_bytes(out, b" ");
    text::add_decimal(out, fault.spot.place);
    text::add_bytes(out, b"\n");
    Ok(())
}
