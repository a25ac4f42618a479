//! Plays the run file on standard input, for the bench programs.
#![tactic(auto)]

ghost use Rattle.std.specs.Prelude.{false, IfOk};
ghost use Rattle.part.specs.Whole.{whole};
ghost use Rattle.replay.specs.Ran.{BenchState, state_of};
ghost use Rattle.replay.specs.Played.{Played as FilePlayed};

use cells::Cells;
use dialect::Dialect;
use part::Part;
use replay::Bench;
use std::io::{Read, Write};

// One byte more than a run file may have: enough to know that it is too long.
const READ_AT_MOST: u64 = runfile::LONGEST as u64 + 1;

// What was read, and what was printed.
#[derive(Drop)]
pub struct Session {
    pub file: Vec<u8>,
    pub text: Vec<u8>,
}

// Reads a run file, plays it, and prints the lines. Of an input that is too long only one byte past the limit is read. Answers
// what was read and printed: that text is what playing that file comes to, and the part is as the file has left it.
pub fn play_input<D: Dialect, C: Cells>(
    rt: &HostRuntime,
    bench: &mut Bench<D, C>,
) -> anyhow::Result<Session>
    ensures { IfOk result (λ session. FilePlayed session.file.items (state_of D.Dialect C.Cells bench.old) session.text.items (state_of D.Dialect C.Cells bench.new)) }
{
    let heap = rt.alloc();
    let mut file = Vec::new(heap);
    rt.stdin().take(READ_AT_MOST).read_to_end(&mut file)?;
    let mut text = Vec::new(heap);
    bench.play(file.as_slice(), &mut text)?;
    rt.stdout().write_all(text.as_slice())?;
    Ok(Session { file, text })
}

// Puts a part on a bench, with no hold, plays the input on it as `play_input` does, and takes it apart.
pub fn play_input_on<D: Dialect + Drop, C: Cells + Drop>(
    rt: &HostRuntime,
    part: Part<D, C>,
) -> anyhow::Result<Session>
    ensures { IfOk result (λ session. (after : BenchState) × FilePlayed session.file.items (record { held = false; part = whole D.Dialect C.Cells part }) session.text.items after) }
{
    let mut bench = Bench::new(part, rt.alloc());
    let session = play_input(rt, &mut bench);
    let _ = bench.into_part().into_cells();
    session
}
