// Putting bytes into the cells, unless they are protected.
ghost use Rattle.std.specs.Prelude.{◌≡◌, [], ◌∷◌, if◌then◌else◌, Some, None, Decides};
ghost use Rattle.refusal.specs.declared.Refusal.TheVariants.{Protected};
ghost use Rattle.rules.specs.Kind.{in_range, page_protected};
ghost use Rattle.rules.specs.State.{put};
ghost use Rattle.rules.specs.Write.{placed, accepted};
ghost use Rattle.selection.specs.View.{kind, DoneTo, Fits, refusal_of};

use cells::Cells;
use dialect::Dialect;
use refusal::Refusal;

// Whether a size is that of the cells, and the cells are not empty. No struct keeps cells and size together: each of its methods
// would also have to promise that the reference in it stays the same.
pub(crate) fn fits<C: Cells>(cells: &C, size: u32) -> bool
    ensures { Decides result (Fits size (C.site cells.now)) }
{
    64 <= size && cells.size() == size as usize
}

// Whether an address lies in the range that these status bits protect.
pub(crate) fn is_protected<D: Dialect>(status_bits: u8, size: usize, at: usize) -> bool
    ensures { result ≡ in_range (D.facts.range status_bits size) at }
{
    let (first, end) = D::protected(status_bits, size);
    (first..end).contains(&at)
}

// Puts a byte; past the array's end nothing changes.
pub(crate) fn put<D: Dialect, C: Cells>(cells: &mut C, at: usize, byte: u8)
    ensures { DoneTo D.facts C.Cells cells.old (put at byte ∷ []) cells.new }
{
    let _ = cells.put(at, byte);
}

// Puts bytes into a page, from an offset on, rolling over at the page's end.
fn place<D: Dialect, C: Cells>(cells: &mut C, page: u32, offset: u8, bytes: &[u8])
    ensures { DoneTo D.facts C.Cells cells.old (placed page offset bytes.now) cells.new }
{
    let base = page as usize * 64;
    let offset = offset as usize;
    for (i, byte) in bytes.iter().enumerate() {
        put::<D, C>(cells, base + (offset + i % 64) % 64, *byte);
    }
}

// 14 if some data fell in the protected range.
pub(crate) fn unblocked(blocked: bool) -> Result<(), Refusal>
    ensures { refusal_of result ≡ (if blocked then Some Protected else None) }
{
    if blocked {
        return Err(Refusal::Protected);
    }
    Ok(())
}

// Accepts a page: puts its bytes in the order of sending. A protected page is refused with 14, and then nothing changes.
pub(crate) fn accept<D: Dialect, C: Cells>(
    cells: &mut C,
    status_bits: u8,
    page: u32,
    offset: u8,
    bytes: &[u8],
) -> Result<(), Refusal>
    ensures answer { refusal_of result ≡ (if page_protected (kind D.facts C.Cells cells.old) status_bits page then Some Protected else None) }
    ensures done { DoneTo D.facts C.Cells cells.old (accepted (kind D.facts C.Cells cells.old) status_bits page offset bytes.now) cells.new }
{
    let size = cells.size();
    unblocked(is_protected::<D>(status_bits, size, page as usize * 64))?;
    place::<D, C>(cells, page, offset, bytes);
    Ok(())
}
