// Plays a run file on a part of dialect mr above lasting cells of 256 bytes, all FFh at first, and prints a line for each
// record.
//
//     mrbench < examples/lap-kept.run
#![tactic(auto)]

use benchrun::play_input_on;
use dialect::Mr;
use lasting::Lasting;
use part::Part;

fn main(rt: HostRuntime) -> anyhow::Result<()> {
    let mut memory = [0xFF; 256];
    play_input_on(&rt, Part::new(Mr, Lasting::over(&mut memory)))?;
    Ok(())
}
