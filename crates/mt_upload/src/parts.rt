//! The parts of an upload, by their index.
ghost use Rattle.std.specs.Prelude.{◌≡◌, ◌∷◌, IfErr, IfOk, OnErr, OnOk, min, take};
ghost use Rattle.std.specs.List.{enumerate_from, list_all, sum_by};
ghost use Rattle.std.specs.List.Sorted.{IsStrictlySortedBy};
ghost use Rattle.std.specs.Ordering.{nat_cmp};
ghost use Rattle.mt_model.specs.UploadSteps.{is_listed, with_part};
ghost use Rattle.mt_upload.specs.UploadList.{IsGapFor, IsPlaceOf, indexes_of, stands_at};

use mt_types::{Body, PartRow, PartRows, Sequence};
use std::alloc::{AllocError, Global};
use std::mem;

// Whether the part at a place has it for its index, and this number.
fn stands_at<B>(parts: &[PartRow<B>], place: usize, number: u64) -> bool
    ensures { result ≡ stands_at parts.now (place, number) }
{
    match parts.get(place) {
        Some(part) => usize::from(part.index) == place && part.number == number,
        None => false,
    }
}

/// Whether these are the numbers of the parts of index 0 and on, in this order. The parts rise by index, so those that are listed
/// are the first: one walk over both lists.
pub(crate) fn are_listed<B>(parts: &[PartRow<B>], numbers: &[u64]) -> bool
    requires { IsStrictlySortedBy nat_cmp (indexes_of parts.now) }
    ensures { result ≡ list_all (is_listed parts.now) (enumerate_from 0 numbers.now) }
{
    for place in 0..numbers.len() {
        if !stands_at(parts, place, numbers[place]) {
            return false;
        }
    }
    true
}

/// How many bytes the first parts have together, so many of them; a sum that isn't below 2^64 stands at 2^64 - 1.
pub(crate) fn front_len(parts: &[PartRow<Body>], count: usize) -> u64
    ensures { result ≡ min 18446744073709551615 (sum_by (λ p. p.body.len) (take count parts.now)) }
{
    let mut total: u64 = 0;
    let front = &parts[..count.min(parts.len())];
    for part in front {
        total = total.saturating_add(part.body.len);
    }
    total
}

// Where the part of an index stands, or where it would.
fn find_part<B>(parts: &[PartRow<B>], index: u16) -> Result<usize, usize>
    requires { IsStrictlySortedBy nat_cmp (indexes_of parts.now) }
    ensures found { IfOk result (IsPlaceOf (λ p. p.index) parts.now index) }
    ensures absent { IfErr result (IsGapFor (λ p. p.index) parts.now index) }
{
    parts.binary_search_by_key(&index, |part| part.index)
}

// Puts a part by its index, in the place of the one that stood there.
fn put_row<B: Drop>(parts: &mut Vec<PartRow<B>>, part: PartRow<B>) -> Result<(), AllocError>
    requires { IsStrictlySortedBy nat_cmp (indexes_of parts.old.items) }
    ensures ok { OnOk result (parts.new.items ≡ with_part part parts.old.items) }
    ensures err { OnErr result (parts.new.items ≡ parts.old.items) }
    ensures rising { IsStrictlySortedBy nat_cmp (indexes_of parts.new.items) }
{
    match find_part(parts, part.index) {
        Ok(place) => {
            parts[place] = part;
            Ok(())
        }
        Err(place) => Ok(parts.insert(place, part)?),
    }
}

/// Puts a part by its index, in the place of the one that stood there. On an error, which is want of memory, the parts are as they were.
pub(crate) fn put_part<B: Drop>(
    alloc: Global,
    parts: &mut PartRows<B>,
    part: PartRow<B>,
) -> Result<(), AllocError>
    requires { IsStrictlySortedBy nat_cmp (indexes_of parts.old) }
    ensures ok { OnOk result (parts.new ≡ with_part part parts.old) }
    ensures err { OnErr result (parts.new ≡ parts.old) }
    ensures rising { IsStrictlySortedBy nat_cmp (indexes_of parts.new) }
{
    let mut rows = mem::replace(parts, Sequence::new(alloc)).into_vec();
    let put = put_row(&mut rows, part);
    *parts = Sequence::from_vec(rows);
    put
}
