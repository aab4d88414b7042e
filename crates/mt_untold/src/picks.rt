//! What a crash leaves, as a row names it.
use mt_disk::Pick;
use mt_rows::{Row, Stop};
use std::alloc::Global;

/// The picks that a row names from a place on, that of the newest call of the disk first.
pub fn picks_of(alloc: Global, row: &Row, from: usize) -> Result<Vec<Pick>, Stop> {
    let mut picks = Vec::new(alloc);
    for place in from..row.len() {
        picks.push(pick_of(row.bytes(place)?)?)?;
    }
    Ok(picks)
}

fn pick_of(name: &[u8]) -> Result<Pick, Stop> {
    match name {
        b"nothing" => Ok(Pick::Nothing),
        b"zeros" => Ok(Pick::Zeros),
        b"ones" => Ok(Pick::Ones),
        b"half" => Ok(Pick::Half),
        b"whole" => Ok(Pick::Whole),
        _ => Err(Stop::NoSuchRow),
    }
}
