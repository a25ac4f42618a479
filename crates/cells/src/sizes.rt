// The sizes that arrays over lent memory take: the powers of two within two bounds.
ghost use Rattle.std.specs.Prelude.{◌≡◌, ◌*◌, ◌<◌, ◌≤◌};
ghost use Rattle.cells.specs.Sizes.{is_size, pages_for, Sized};

pub const SMALLEST: usize = 256;

pub const LARGEST: usize = 131_072;

// Whether a delivered array may have this size.
fn is_size(bytes: usize) -> bool
    ensures { result ≡ is_size bytes }
{
    (SMALLEST..=LARGEST).contains(&bytes) && bytes.is_power_of_two()
}

// The size of an array that has room for so many bytes in each image: all of them if they are a power of two from
// `SMALLEST` to `LARGEST`, else 0. That is a number and no `Option`, since an array of size 0 is an array like any other: it
// has no address and no page, and refuses each.
pub fn size_for(room: usize) -> usize
    ensures size { result ≡ 64 * pages_for room }
    ensures sized { Sized room result }
    ensures within { result ≤ room }
    ensures whole { 0 < result → result ≡ room }
{
    if is_size(room) { room } else { 0 }
}
