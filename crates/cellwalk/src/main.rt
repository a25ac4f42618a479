// Walks both cell arrays, of 256 bytes that are all FF, through the same steps, and prints after each step every byte that
// it changed. At each step the array is made anew over the same lent memory, and making it changes nothing; between the
// steps the memory is free to be looked at.
//
// The expected output is worked out by hand from the rules: docs/CELLS.md has the steps in a table. In short: shadowed cells
// lose at the fade what was not kept (address 17, put after the keep, and address 70, in a page that was never kept), and
// lasting cells lose nothing.
#![tactic(auto)]

ghost use Rattle.std.specs.Prelude.{◌≡◌, ◌^◌, ◌<◌, true, false, length};
ghost use Rattle.refusal.specs.Numbers.{numbered};
ghost use Rattle.cells.specs.Sizes.{pages_for};
ghost use Rattle.lasting.specs.Whole.{whole};
ghost use Rattle.shadowed.specs.Halves.{pages_in, halves};
ghost use Rattle.cellwalk.specs.Steps.{answer_to, Leaves};

use cells::Cells;
use lasting::Lasting;
use refusal::Refusal;
use shadowed::Shadowed;
use std::{fmt, io};

#[derive(Clone, Copy)]
enum Step {
    Put(usize, u8),
    Keep(usize),
    Recall(usize),
    Fade,
}

impl fmt::Display for Step {
    fn fmt<W: fmt::Write>(&self, f: &mut fmt::Formatter<W>) -> fmt::Result {
        match *self {
            Step::Put(at, byte) => write!(f, "put {byte:02X} at {at}"),
            Step::Keep(page) => write!(f, "keep page {page}"),
            Step::Recall(page) => write!(f, "recall page {page}"),
            Step::Fade => write!(f, "fade"),
        }
    }
}

// The bytes of each image.
const SIZE: usize = 256;

const WALK: [Step; 9] = [
    Step::Put(16, 0x5A),
    Step::Put(70, 0x11),
    Step::Keep(0),
    Step::Put(17, 0x22),
    Step::Fade,
    Step::Recall(0),
    Step::Recall(1),
    Step::Put(256, 0x33),
    Step::Keep(4),
];

// Takes one step over any array.
fn take<C: Cells>(cells: &mut C, step: Step) -> Result<(), Refusal>
    ensures answer { numbered result ≡ answer_to (C.site cells.old).pages step }
    ensures images { Leaves C.lasting (C.site cells.old).pages step (C.images cells.old) (C.images cells.new) }
    ensures site { C.site cells.new ≡ C.site cells.old }
{
    match step {
        Step::Put(at, byte) => cells.put(at, byte),
        Step::Keep(page) => cells.keep(page),
        Step::Recall(page) => cells.recall(page),
        Step::Fade => {
            cells.fade();
            Ok(())
        }
    }
}

// Takes one step over shadowed cells in lent memory, which holds afterwards what the step leaves in the two images.
fn step_shadowed(memory: &mut [u8], step: Step) -> Result<(), Refusal>
    ensures { Leaves false (pages_in (length memory.old)) step (halves memory.old) (halves memory.new) }
{
    take(&mut Shadowed::over(memory), step)
}

// The same over lasting cells. What the memory holds is told in each array's own words, so that the two stay two.
fn step_lasting(memory: &mut [u8], step: Step) -> Result<(), Refusal>
    ensures { Leaves true (pages_for (length memory.old)) step (whole memory.old) (whole memory.new) }
{
    take(&mut Lasting::over(memory), step)
}

// Prints a step and how it ended.
fn print_step(rt: &impl Print, step: Step, answer: Result<(), Refusal>) -> io::Result<()> {
    match answer {
        Ok(()) => println!(rt; "{step}: done"),
        Err(refusal) => println!(rt; "{step}: {refusal}"),
    }
}

// Prints each byte of an image that has changed, or that none has.
fn print_changes(rt: &impl Print, image: &str, before: &[u8], after: &[u8]) -> io::Result<()> {
    if before == after {
        return println!(rt; "    {image}: no change");
    }
    for (at, (old, new)) in before.iter().zip(after).enumerate() {
        if old != new {
            println!(rt; "    {image} {at}: {old:02X} -> {new:02X}")?;
        }
    }
    Ok(())
}

// Takes each step of the walk over lent memory, in which images of `SIZE` bytes lie under these names one behind the other.
fn walk<const N: usize, F: Fn(&mut [u8], Step) -> Result<(), Refusal>>(
    rt: &impl Print,
    images: &[&str],
    take_step: F,
) -> io::Result<()>
    requires any_step { F.IsAlwaysCallable take_step }
    requires room { N < 2 ^ 63 }
{
    let mut memory = [0xFF; N];
    for step in WALK {
        let before = memory;
        let answer = take_step(&mut memory, step);
        print_step(rt, step, answer)?;
        let both = before.chunks(SIZE).zip(memory.chunks(SIZE));
        for (image, (before, after)) in images.iter().zip(both) {
            print_changes(rt, image, before, after)?;
        }
    }
    Ok(())
}

fn main(rt: HostRuntime) -> io::Result<()> {
    println!(rt; "Shadowed cells of {SIZE} bytes, all FF:")?;
    walk::<512, _>(&rt, &["working", "kept"], step_shadowed)?;
    println!(rt; "Lasting cells of {SIZE} bytes, all FF:")?;
    walk::<256, _>(&rt, &["working and kept"], step_lasting)
}
