// Reading: what the part drives.
ghost use Rattle.std.specs.Prelude.{◌≡◌, ◌+◌, ◌*◌, ◌/◌, ◌%◌, ◌<◌, slice_index};
ghost use Rattle.crc.specs.Transfer.{count_of};
ghost use Rattle.rules.specs.Byte.{secure_drive};
ghost use Rattle.rules.specs.Machine.{driven as driven_byte, secure_sum};
ghost use Rattle.selection.specs.View.{kind, Fits};

use cells::Cells;
use crc::AddressBytes;
use dialect::Dialect;
use std::array;

// The working byte at an address.
pub(crate) fn read<C: Cells>(cells: &C, at: usize) -> u8
    ensures { result ≡ slice_index (C.images cells.now).working at }
{
    cells.get(at).unwrap_or(0)
}

// How many bytes an address has, as the sum takes it. The laws of a dialect leave 2 and 3, so `try_from` never refuses.
pub(crate) fn address_bytes<D: Dialect>() -> AddressBytes
    ensures { count_of result ≡ D.facts.address_bytes }
{
    AddressBytes::try_from(D::address_length() as u32).unwrap()
}

// The address so many bytes behind an address, rolling over in its page.
fn rolled(from: u32, behind: usize) -> usize
    requires { behind < 64 }
    ensures { result ≡ 64 * (from / 64) + (from % 64 + behind) % 64 }
{
    let from = from as usize;
    from - from % 64 + (from + behind) % 64
}

// The sum that a secure read from an address sends.
fn sum<D: Dialect, C: Cells>(cells: &C, from: u32, size: u32) -> u16
    requires { Fits size (C.site cells.now) }
    ensures { result ≡ secure_sum (kind D.facts C.Cells cells.now) (C.images cells.now).working from }
{
    let page: [u8; 64] = array::from_fn(|i| read(cells, rolled(from, i)));
    crc::page_sum(address_bytes::<D>(), size, from, &page)
}

// What a secure read from an address drives behind so many bytes: 64 bytes of its page, rolling over, then the sum, high byte
// first, then nothing.
pub(crate) fn drive_secure<D: Dialect, C: Cells>(
    cells: &C,
    from: u32,
    driven: u8,
    size: u32,
) -> Option<u8>
    requires { Fits size (C.site cells.now) }
    ensures { result ≡ driven_byte (kind D.facts C.Cells cells.now) (C.images cells.now).working (secure_drive from driven) }
{
    match driven {
        0..64 => Some(read(cells, rolled(from, usize::from(driven)))),
        64..66 => {
            let sum = sum::<D, C>(cells, from, size).to_be_bytes();
            Some(sum[usize::from(driven - 64)])
        }
        _ => None,
    }
}
