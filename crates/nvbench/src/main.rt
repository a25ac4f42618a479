// Plays a run file on a part of dialect nv above shadowed cells of 256 bytes, all FFh at first, and prints a line for each
// record.
//
//     nvbench < examples/lap-kept.run
#![tactic(auto)]

use benchrun::play_input_on;
use dialect::Nv;
use part::Part;
use shadowed::Shadowed;

fn main(rt: HostRuntime) -> anyhow::Result<()> {
    let mut memory = [0xFF; 512];
    play_input_on(&rt, Part::new(Nv, Shadowed::over(&mut memory)))?;
    Ok(())
}
