// An image that lies in plain bytes, one after the other: what arrays over lent memory are made of.
ghost use Rattle.std.specs.Prelude.{◌≡◌, ◌/◌, length, if◌then◌else◌, min, nat_lt, slice_set};
ghost use Rattle.refusal.specs.Numbers.{numbered};
ghost use Rattle.cells.specs.Images.{got, address_answer, page_answer, with_page};

use crate::PAGE;
use refusal::Refusal;

// The byte at an address. An address past the end is refused with 41.
pub fn get(image: &[u8], at: usize) -> Result<u8, Refusal>
    ensures { numbered result ≡ got (length image.now) at image.now }
{
    image.get(at).copied().ok_or(Refusal::AddressPastEnd)
}

// Sets the byte at an address. An address past the end is refused with 41, and nothing changes.
pub fn put(image: &mut [u8], at: usize, byte: u8) -> Result<(), Refusal>
    ensures answer { numbered result ≡ address_answer (length image.old) at }
    ensures image { image.new ≡ (if nat_lt at (length image.old) then slice_set image.old at byte else image.old) }
{
    // By the index: after a write through what `get_mut` lends, a proof knows nothing of a slice's items.
    if at >= image.len() {
        return Err(Refusal::AddressPastEnd);
    }
    image[at] = byte;
    Ok(())
}

// Whether an image of so many bytes has a page. A page past the end is refused with 42.
pub fn find_page(size: usize, page: usize) -> Result<(), Refusal>
    ensures { numbered result ≡ page_answer (size / 64) page }
{
    if page < size / PAGE {
        Ok(())
    } else {
        Err(Refusal::PagePastEnd)
    }
}

// Sets a page of one image to that page of another. A page that lies past the end of either is refused with 42, and nothing
// changes.
pub fn copy_page(from: &[u8], to: &mut [u8], page: usize) -> Result<(), Refusal>
    ensures answer { numbered result ≡ page_answer (min (length from.now) (length to.old) / 64) page }
    ensures image { to.new ≡ (if nat_lt page (min (length from.now) (length to.old) / 64) then with_page page from.now to.old else to.old) }
{
    find_page(from.len().min(to.len()), page)?;
    let start = PAGE * page;
    let end = start + PAGE;
    to[start..end].copy_from_slice(&from[start..end]);
    Ok(())
}
