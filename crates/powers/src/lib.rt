//! Powers of two, by which memories are sized.
#![tactic(auto)]

ghost use Rattle.std.specs.Prelude.{◌≡◌, ℕ, ◌^◌, Decides, ◌==◌, count_ones};

// Whether a number is a power of two: it has one binary digit that is 1. The library's own test promises only the digits.
pub fn is_power_of_two(n: usize) -> bool
    ensures digits { result ≡ (count_ones n == 1) }
    ensures power { Decides result ((e : ℕ) × (n ≡ 2 ^ e)) }
{
    n.is_power_of_two()
}
