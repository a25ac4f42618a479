// Compares the library with values that are known from elsewhere, and prints each comparison: sums, and the sizes at which a
// part is alive. The values worked out by hand that are proved of the rules stand in the crate `worked`.
//
// bench/known_values.py prints the known values, and what is printed here.
#![tactic(auto)]

use cells::Cells;
use dialect::{Dialect, Mr, Nv};
use lasting::Lasting;
use part::Part;
use shadowed::Shadowed;
use std::alloc::{AllocError, Global};
use vectors::VECTORS;

// A size N, and whether a part of that size is alive: at the powers of two from 256 to the dialect's largest.
#[derive(Clone, Copy)]
struct Known {
    size: usize,
    alive: bool,
}

#[rattlefmt::skip]
const NV_SIZES: [Known; 8] = [
    Known { size: 0, alive: false },
    Known { size: 128, alive: false },
    Known { size: 256, alive: true },
    Known { size: 320, alive: false },
    Known { size: 16384, alive: true },
    Known { size: 32768, alive: true },
    Known { size: 65536, alive: false },
    Known { size: 131072, alive: false },
];

#[rattlefmt::skip]
const MR_SIZES: [Known; 7] = [
    Known { size: 128, alive: false },
    Known { size: 256, alive: true },
    Known { size: 65536, alive: true },
    Known { size: 65600, alive: false },
    Known { size: 98304, alive: false },
    Known { size: 131072, alive: true },
    Known { size: 262144, alive: false },
];

// Whether a part can be powered up; a dead one refuses.
fn wakes<D: Dialect + Drop, C: Cells + Drop>(dialect: D, cells: C) -> bool {
    let mut part = Part::new(dialect, cells);
    let answer = part.power_up();
    let _ = part.into_cells();
    answer.is_ok()
}

// Of dialect nv above shadowed cells of N bytes. This one and the next only say which memory is lent to which array: a trait
// for arrays over lent memory would be longer than both.
fn nv_wakes(heap: Global, size: usize) -> Result<bool, AllocError> {
    let mut memory = vec![in heap; 0xFF; size.saturating_mul(2)]?;
    Ok(wakes(Nv, Shadowed::over(memory.as_mut_slice())))
}

// Of dialect mr above lasting cells of N bytes.
fn mr_wakes(heap: Global, size: usize) -> Result<bool, AllocError> {
    let mut memory = vec![in heap; 0xFF; size]?;
    Ok(wakes(Mr, Lasting::over(memory.as_mut_slice())))
}

// Prints of each size whether a part is alive, and says how many are as known.
fn compare_sizes<F: Fn(Global, usize) -> Result<bool, AllocError>>(
    rt: &HostRuntime,
    part: &str,
    sizes: &[Known],
    wakes: F,
) -> anyhow::Result<usize>
    requires { F.IsAlwaysCallable wakes }
{
    // Counted as each line is printed, which can fail.
    let mut agreeing: usize = 0;
    for Known { size, alive } in sizes {
        let lives = wakes(rt.alloc(), *size)?;
        let agree = lives == *alive;
        let life = if lives { "alive" } else { "dead" };
        let verdict = if agree {
            "as it should be"
        } else {
            "WHICH IS WRONG"
        };
        println!(rt; "{part} at N = {size} is {life}, {verdict}")?;
        agreeing = agreeing.saturating_add(usize::from(agree));
    }
    Ok(agreeing)
}

fn main(rt: HostRuntime) -> anyhow::Result<()> {
    let mut sums: usize = 0;
    for vector in &VECTORS {
        let compared = vector.compared();
        println!(rt; "{compared}")?;
        sums = sums.saturating_add(usize::from(compared.agrees()));
    }
    let nv = compare_sizes(&rt, "nv above shadowed cells", &NV_SIZES, nv_wakes)?;
    let mr = compare_sizes(&rt, "mr above lasting cells", &MR_SIZES, mr_wakes)?;
    let agreeing = sums.saturating_add(nv).saturating_add(mr);
    let all = VECTORS.len() + NV_SIZES.len() + MR_SIZES.len();
    println!(rt; "{agreeing} of {all} agree")?;
    Ok(())
}
