// What holds over every cell array, whatever its fade leaves in the working image: a page that was kept can be recalled.
ghost use Rattle.std.specs.Prelude.{◌≡◌, true, false, is_ok};
ghost use Rattle.refusal.specs.Numbers.{numbered};
ghost use Rattle.cells.specs.Images.{page_of, page_answer, after_keep};

use crate::Cells;
use refusal::Refusal;

// A keep, seen from its page: the kept image has it from the working image, which stays.
fn keep_page<C: Cells>(cells: &mut C, page: usize) -> Result<(), Refusal>
    ensures answer { numbered result ≡ page_answer (C.site cells.old).pages page }
    ensures working { (C.images cells.new).working ≡ (C.images cells.old).working }
    ensures kept { (C.images cells.new).kept ≡ (after_keep (C.site cells.old).pages page (C.images cells.old)).kept }
    ensures page { is_ok result ≡ true → page_of page (C.images cells.new).kept ≡ page_of page (C.images cells.old).working }
    ensures site { C.site cells.new ≡ C.site cells.old }
{
    cells.keep(page)
}

// A recall, seen from its page: the working image has it from the kept image, which stays.
fn recall_page<C: Cells>(cells: &mut C, page: usize) -> Result<(), Refusal>
    ensures answer { numbered result ≡ page_answer (C.site cells.old).pages page }
    ensures kept { (C.images cells.new).kept ≡ (C.images cells.old).kept }
    ensures page { is_ok result ≡ true → page_of page (C.images cells.new).working ≡ page_of page (C.images cells.old).kept }
    ensures site { C.site cells.new ≡ C.site cells.old }
{
    cells.recall(page)
}

// Keeps a page, lets the array fade and recalls the page. A page past the end is refused with 42, and nothing changes. Else
// the page holds in both images what the working image held, whatever the fade left in the rest of the working image.
pub fn outlast_fade<C: Cells>(cells: &mut C, page: usize) -> Result<(), Refusal>
    ensures answer { numbered result ≡ page_answer (C.site cells.old).pages page }
    ensures kept { (C.images cells.new).kept ≡ (after_keep (C.site cells.old).pages page (C.images cells.old)).kept }
    ensures working { page_of page (C.images cells.new).working ≡ page_of page (C.images cells.old).working }
    ensures unchanged { is_ok result ≡ false → C.images cells.new ≡ C.images cells.old }
    ensures site { C.site cells.new ≡ C.site cells.old }
{
    keep_page(cells, page)?;
    cells.fade();
    recall_page(cells, page)
}
