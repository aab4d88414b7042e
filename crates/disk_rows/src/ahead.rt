//! Two reads of One over a disk that reads ahead in it, and a call of a file between them.
use crate::disks::{file_at, put_bytes, zeros};
use mt_ahead::ReadAhead;
use mt_disk::{Disk, DiskFault, FileNo};
use mt_rows::{Row, Stop};
use mt_untold::Untold;
use std::alloc::{AllocError, Global};

// The two bytes of One at a place.
fn put_two(disk: &mut ReadAhead<'_, Untold>, at: u64, out: &mut String) -> Result<(), AllocError> {
    let mut into = [0; 2];
    let done = disk.read(FileNo::One, at, &mut into);
    write!(out, "{done:?} ")?;
    put_bytes(out, &into)
}

// The call that a row names, a write or a cut of a file.
fn change(disk: &mut ReadAhead<'_, Untold>, row: &Row) -> Result<Result<(), DiskFault>, Stop> {
    let file = file_at(row, 3)?;
    let place = row.number(4)?;
    match row.text(2)? {
        "write" => Ok(disk.write_at(file, place, row.bytes(5)?)),
        "cut" => Ok(disk.cut(file, place)),
        _ => Err(Stop::NoSuchRow),
    }
}

// Two bytes, that call, and the next two.
fn put_reads(disk: &mut ReadAhead<'_, Untold>, row: &Row, out: &mut String) -> Result<(), Stop> {
    put_two(disk, 0, out)?;
    let done = change(disk, row)?;
    write!(out, ", {done:?}, ")?;
    Ok(put_two(disk, 2, out)?)
}

// The same by a window that is lent.
fn put_over(disk: &mut Untold, window: &mut [u8], row: &Row, out: &mut String) -> Result<(), Stop> {
    let end = disk.file(FileNo::One).len() as u64;
    let mut ahead = ReadAhead::new(disk, FileNo::One, end, window);
    put_reads(&mut ahead, row, out)
}

/// `ahead WINDOW write FILE PLACE PIECE` and `ahead WINDOW cut FILE PLACE`: two bytes of One, this call, and the next two, where so many
/// bytes are read ahead; and how many calls of the disk below were made.
pub fn put_ahead(
    alloc: Global,
    disk: &mut Untold,
    row: &Row,
    out: &mut String,
) -> Result<(), Stop> {
    let mut window = zeros(alloc, row.number(1)?)?;
    let before = disk.calls();
    put_over(disk, window.as_mut_slice(), row, out)?;
    let made = disk.calls().saturating_sub(before);
    Ok(write!(out, "; {made} calls")?)
}
