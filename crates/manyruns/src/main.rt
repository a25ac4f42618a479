// Plays many run files, each on both benches, and prints of each how many lines and bytes it makes, and the sum of those
// bytes.
//
// Standard input has the files one behind the other, each behind its length in three bytes, highest first. The files in `stdin`
// are pseudo-random sessions, whole and damaged, and the examples; `stdout` was written by bench/run_model, a model of the same
// machine that shares nothing with the code here, and was written from docs/ alone.
#![tactic(auto)]

ghost use Rattle.std.specs.Prelude.{length};
ghost use Rattle.std.specs.Iterator.{at_most};

use cells::Cells;
use dialect::{Dialect, Mr, Nv};
use lasting::Lasting;
use part::Part;
use replay::Bench;
use shadowed::Shadowed;
use std::io::Read;

// The files of a pack, up to the end or to the first that is not whole.
#[derive(Drop)]
struct Files<'a> {
    rest: &'a [u8],
}

impl<'a> Iterator for Files<'a> {
    type Item = &'a [u8];

    ghost remaining = { λ s. at_most (length s.rest.now) };

    fn next(&mut self) -> Option<&'a [u8]> {
        let (len, behind) = self.rest.split_first_chunk::<3>()?;
        let len = u32::from_be_bytes([0, len[0], len[1], len[2]]);
        let (file, rest) = behind.split_at_checked(len as usize)?;
        self.rest = rest;
        Some(file)
    }
}

fn print_digest(rt: &HostRuntime, number: usize, bench: &str, text: &[u8]) -> anyhow::Result<()> {
    let lines = text.iter().filter(|byte| **byte == b'\n').count();
    let bytes = text.len();
    let sum = crc::sum(text);
    println!(rt; "{number} {bench} {lines} lines {bytes} bytes sum {sum:04X}")?;
    Ok(())
}

// Plays a file on a part, and prints what a bench makes of it.
fn play_on<D: Dialect + Drop, C: Cells + Drop>(
    rt: &HostRuntime,
    number: usize,
    name: &str,
    part: Part<D, C>,
    file: &[u8],
) -> anyhow::Result<()> {
    let mut text = Vec::new(rt.alloc());
    let mut bench = Bench::new(part, rt.alloc());
    let played = bench.play(file, &mut text);
    let _ = bench.into_part().into_cells();
    played?;
    print_digest(rt, number, name, text.as_slice())
}

fn play_both(rt: &HostRuntime, number: usize, file: &[u8]) -> anyhow::Result<()> {
    let mut memory = [0xFF; 512];
    let part = Part::new(Nv, Shadowed::over(&mut memory));
    play_on(rt, number, "nv", part, file)?;
    let mut memory = [0xFF; 256];
    let part = Part::new(Mr, Lasting::over(&mut memory));
    play_on(rt, number, "mr", part, file)
}

fn main(rt: HostRuntime) -> anyhow::Result<()> {
    let mut pack = Vec::new(rt.alloc());
    rt.stdin().read_to_end(&mut pack)?;
    let files = Files {
        rest: pack.as_slice(),
    };
    for (number, file) in files.enumerate() {
        play_both(&rt, number, file)?;
    }
    Ok(())
}
