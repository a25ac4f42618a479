//! Numbers as upper-case hexadecimal figures.
#![tactic(auto)]

ghost use Rattle.std.specs.Prelude.{◌≡◌, ◌%◌, ◌<◌, Some};
ghost use Rattle.figures.specs.Figures.{figure, sum_text};

use std::fmt;

// The figures of 0 to 15.
const FIGURES: [u8; 16] = *b"0123456789ABCDEF";

// The figure of the lowest four bits of a number.
pub fn hexadecimal_figure(number: u16) -> u8
    ensures figure { result ≡ figure (number % 16) }
    ensures ascii { result < 128 }
{
    FIGURES[usize::from(number % 16)]
}

// A sum, as it is shown: four figures. A type of its own, since with `{:04X}` in a line that says more, the proof of the whole
// line does not close: it has too many terms for the search.
#[derive(Clone, Copy)]
pub struct Sum(pub u16);

impl fmt::Display for Sum {
    ghost output = { λ s. Some (sum_text s.0) };

    #[tactic(auto, using(crate::proofs::Sums::four_figures))]
    fn fmt<W: fmt::Write>(&self, f: &mut fmt::Formatter<W>) -> fmt::Result {
        let sum = self.0;
        write!(f, "{sum:04X}")
    }
}
