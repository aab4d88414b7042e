//! Rows whose names rise.
ghost use Rattle.std.specs.Prelude.{◌≡◌};
ghost use Rattle.mt_page.specs.Pages as said;

use crate::row::PageRow;

// Whether the names of rows rise, the first above this one.
fn rises_above(name: &[u8], rows: &[PageRow]) -> bool
    ensures { result ≡ said.rises_above name.now rows.now }
{
    let mut last = name;
    for row in rows {
        if !last.cmp(row.name.as_bytes()).is_lt() {
            return false;
        }
        last = row.name.as_bytes();
    }
    true
}

/// Whether the names of rows rise in the order of their bytes, and none is below a marker. It takes no memory.
pub fn is_in_order(marker: &[u8], rows: &[PageRow]) -> bool
    ensures { result ≡ said.is_in_order marker.now rows.now }
{
    match rows {
        [] => true,
        [first, others @ ..] => {
            let name = first.name.as_bytes();
            marker.cmp(name).is_le() && rises_above(name, others)
        }
    }
}
