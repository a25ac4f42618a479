// Prints, for each size given as an argument, which status bits protect which addresses in each dialect.
#![tactic(auto)]

ghost use Rattle.dialect.specs.Facts.{Alive, Within};

use dialect::{Dialect, Mr, Nv};
use std::{env, io};

// One row. The laws of the range say that the subtraction does not wrap.
fn print_row<D: Dialect>(rt: &impl Print, lead: u8, size: usize) -> io::Result<()>
    requires { (Within D.facts lead) × (Alive D.facts size) }
{
    let (first, end) = D::protected(lead, size);
    let bytes = end - first;
    print!(rt; "{first:>8}{end:>8}{bytes:>8} ")?;
    for status_bits in lead..=u8::MAX {
        if ranges::shares_row::<D>(lead, status_bits, size) {
            print!(rt; " {status_bits:02X}h")?;
        }
    }
    println!(rt; "")
}

fn print_table<D: Dialect>(rt: &impl Print, name: &str, size: usize) -> io::Result<()> {
    let largest = D::LARGEST;
    if !D::is_alive(size) {
        return println!(rt;
            "{name} at {size} bytes: dead, being no power of two from 256 to {largest}"
        );
    }
    println!(rt; "{name} at {size} bytes\n   first     end   bytes  status bits")?;
    for lead in 0..=u8::MAX {
        if ranges::opens_row::<D>(lead, size) {
            print_row::<D>(rt, lead, size)?;
        }
    }
    Ok(())
}

fn print_tables(rt: &impl Print, word: &str) -> io::Result<()> {
    let Ok(size) = word.parse::<usize>() else {
        return println!(rt; "{word}: no size");
    };
    print_table::<Nv>(rt, "nv", size)?;
    print_table::<Mr>(rt, "mr", size)
}

fn main(rt: HostRuntime) -> io::Result<()> {
    println!(rt;
        "rangemap SIZE..: protected are the addresses from first up to but not including end"
    )?;
    for word in env::args(&rt)?.skip(1) {
        print_tables(&rt, word.as_str())?;
    }
    Ok(())
}
