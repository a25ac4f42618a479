// Checks frames captured off the bus.
//
//     framecheck < examples/frames.txt
//
// Standard input has a frame on each line; standard output has a line for each, and at the end how many were right, wrong
// and unreadable. What a line says is worked out by `capture` and put into words by `report`, and proved there; here is
// only the reading and the writing.
#![tactic(auto)]

use report::{Lines, Tally};
use std::io::{Read, Write};

// So many bytes of the report are gathered before they are written. They are gathered in a `String`, since what is promised of a
// line is promised of a text that it is added to.
const GATHERED: usize = 65_536;

fn check(rt: &HostRuntime) -> anyhow::Result<()> {
    let heap = rt.alloc();
    let mut text = Vec::new(heap);
    rt.stdin().read_to_end(&mut text)?;
    let mut tally = Tally::new();
    let mut out = String::new(heap);
    for (number, line) in (1u64..).zip(Lines(text.as_slice())) {
        let examined = capture::examine(line);
        tally.count(&examined);
        report::add_line(&mut out, number, examined)?;
        if out.len() >= GATHERED {
            rt.stdout().write_all(out.as_bytes())?;
            out.clear();
        }
    }
    report::add_tally(&mut out, &tally)?;
    rt.stdout().write_all(out.as_bytes())?;
    Ok(())
}

fn main(rt: HostRuntime) -> anyhow::Result<()> {
    check(&rt)
}
