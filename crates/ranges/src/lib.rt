// The rows of a table of protected ranges: which status bits stand together, since they protect the same range.
#![tactic(auto)]

ghost use Rattle.ranges.specs.Rows.{Shares, Opens};
ghost use Rattle.std.specs.Prelude.{Decides};

use dialect::Dialect;

// Whether `status_bits` are within the mask and protect the range that `lead` protects.
pub fn shares_row<D: Dialect>(lead: u8, status_bits: u8, size: usize) -> bool
    ensures { Decides result (Shares D.facts size lead status_bits) }
{
    status_bits & D::mask() == status_bits
        && D::protected(status_bits, size) == D::protected(lead, size)
}

// Whether `status_bits` are the smallest within the mask that protect their range.
pub fn opens_row<D: Dialect>(status_bits: u8, size: usize) -> bool
    ensures { Decides result (Opens D.facts size status_bits) }
{
    status_bits & D::mask() == status_bits
        && !(0..status_bits).any(|smaller| shares_row::<D>(status_bits, smaller, size))
}
