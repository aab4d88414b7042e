//! Orders of tasks, by the words of rows.
use crate::plays::Plays;
use mt_base::{Sequence, Text};
use mt_edge::MemSource;
use mt_rows::{Row, Stop};
use mt_spawn::{AssetSize, Begun, Order, Spawner};
use std::alloc::Global;

/// The words of a start before its assets.
const WORDS: usize = 8;

// The text at a place, where it is not `-`.
fn optional(alloc: Global, row: &Row, place: usize) -> Result<Option<Text>, Stop> {
    match row.text(place)? {
        "-" => Ok(None),
        text => Ok(Some(Text::from_str(alloc, text)?)),
    }
}

// The names and sizes of assets, which stand behind the other words, each with its bytes behind it.
fn assets(alloc: Global, row: &Row) -> Result<Sequence<AssetSize>, Stop> {
    let mut assets = Vec::new(alloc);
    for place in WORDS..row.len() {
        if place % 2 == 0 {
            assets.push(AssetSize {
                name: Text::from_str(alloc, row.text(place)?)?,
                len: row.bytes(place.saturating_add(1))?.len() as u64,
            })?;
        }
    }
    Ok(Sequence::from_vec(assets))
}

// The input and the assets, one behind another.
fn bytes(alloc: Global, row: &Row) -> Result<Vec<u8>, Stop> {
    let mut bytes = Vec::new(alloc);
    bytes.extend_from_slice(row.bytes(7)?)?;
    for place in WORDS..row.len() {
        if place % 2 == 1 {
            bytes.extend_from_slice(row.bytes(place)?)?;
        }
    }
    Ok(bytes)
}

// `start JOB PHASE OBJECT REDUCER EXEC INIT INPUT`, and `NAME BYTES` of each asset.
fn order(alloc: Global, row: &Row) -> Result<Order, Stop> {
    Ok(Order {
        job: row.number(1)?,
        phase: row.number(2)?.min(1_000) as u32,
        exec: Text::from_str(alloc, row.text(5)?)?,
        init: optional(alloc, row, 6)?,
        base: Text::from_str(alloc, "/l/jobs/j/stor/base.")?,
        object: optional(alloc, row, 3)?,
        reducer: match row.text(4)? {
            "-" => None,
            _ => Some(row.number(4)?.min(1_023) as u32),
        },
        input: row.bytes(7)?.len() as u64,
        assets: assets(alloc, row)?,
    })
}

/// Puts what a start did.
pub(crate) fn put_begun(out: &mut String, begun: Begun) -> Result<(), Stop> {
    match begun {
        Begun::Began(ticket) => write!(out, "Began {}", ticket.number)?,
        Begun::Failed => out.push_str("Failed")?,
        Begun::InputFailed => out.push_str("InputFailed")?,
        Begun::Memory => out.push_str("OutOfMemory")?,
    }
    Ok(())
}

/// Starts an order.
pub(crate) fn put_start(
    plays: &mut Plays,
    alloc: Global,
    row: &Row,
    out: &mut String,
) -> Result<(), Stop> {
    if plays.spawner.is_holding() {
        out.push_str("Holding")?;
        return Ok(());
    }
    let order = order(alloc, row)?;
    let mut failing = Vec::new(alloc);
    if let Some(call) = plays.failing.take() {
        failing.push(call)?;
    }
    let mut source = MemSource::new(alloc, bytes(alloc, row)?).failing(failing);
    put_begun(out, plays.spawner.start(alloc, &order, &mut source))
}
