// Compares the library's sums with values from outside this repository, and prints each comparison. bench/crc_vectors.py
// prints the values from outside, and what is printed here.
#![tactic(auto)]

use vectors::VECTORS;

fn main(rt: HostRuntime) -> anyhow::Result<()> {
    // Counted as each line is printed, which can fail.
    let mut agreeing: usize = 0;
    for vector in &VECTORS {
        let compared = vector.compared();
        println!(rt; "{compared}")?;
        agreeing = agreeing.saturating_add(usize::from(compared.agrees()));
    }
    let all = VECTORS.len();
    println!(rt; "{agreeing} of {all} agree")?;
    Ok(())
}
