//! Starts.
ghost use Rattle.std.specs.Prelude.{◌≡◌, true, None};

use mt_base::{Sequence, Text};
use mt_edge::MemSource;
use mt_rows::{Row, Stop};
use mt_spawn::{AssetSize, Order, Spawner};
use std::alloc::{AllocError, Global};

/// A start as a row says it: `start EXEC BASE INPUT ASSET..`.
#[derive(Drop)]
struct Asked {
    order: Order,
    // Its input and its assets, one behind another.
    source: MemSource,
}

// The sizes of the assets of a row.
fn sizes_of(alloc: Global, row: &Row) -> Result<Sequence<AssetSize>, Stop> {
    let mut sizes = Sequence::new(alloc);
    for place in 4..row.len() {
        let len = row.bytes(place)?.len() as u64;
        let name = Text::from_str(alloc, "/l/stor/asset")?;
        sizes.push(AssetSize { name, len })?;
    }
    Ok(sizes)
}

// The input and the assets of a row.
fn bytes_of(alloc: Global, row: &Row) -> Result<Vec<u8>, Stop> {
    let mut bytes = Vec::new(alloc);
    for place in 3..row.len() {
        bytes.extend_from_slice(row.bytes(place)?)?;
    }
    Ok(bytes)
}

// An order of a map task with this input.
fn order_of(exec: Text, base: Text, input: u64, assets: Sequence<AssetSize>) -> Order {
    Order {
        job: 0,
        phase: 0,
        exec,
        init: None,
        base,
        object: None,
        reducer: Some(0),
        input,
        assets,
    }
}

impl Asked {
    // The start of a row, of whose source the reads of these numbers fail.
    fn of(alloc: Global, row: &Row, failing: Vec<u64>) -> Result<Asked, Stop> {
        let input = row.bytes(3)?.len() as u64;
        let exec = Text::from_str(alloc, row.text(1)?)?;
        let base = Text::from_str(alloc, row.text(2)?)?;
        let order = order_of(exec, base, input, sizes_of(alloc, row)?);
        let source = MemSource::new(alloc, bytes_of(alloc, row)?).failing(failing);
        Ok(Asked { order, source })
    }
}

// Starts a task, and prints what that did and how much is left of its source.
fn put_start<P: Spawner>(
    alloc: Global,
    spawner: &mut P,
    mut asked: Asked,
    out: &mut String,
) -> Result<(), AllocError>
    requires { P.held spawner.old ≡ None }
{
    let begun = spawner.start(alloc, &asked.order, &mut asked.source);
    write!(out, "{begun:?}, left {}", asked.source.left().len())
}

/// Answers a row that starts a task; `start-cut` has a source whose first read fails.
pub fn answer<P: Spawner>(
    alloc: Global,
    spawner: &mut P,
    is_free: bool,
    row: &Row,
    out: &mut String,
) -> Result<(), Stop>
    requires { is_free ≡ true → P.held spawner.old ≡ None }
{
    if !is_free {
        return Err(Stop::NoSuchRow);
    }
    let mut failing = Vec::new(alloc);
    if row.text(0)? == "start-cut" {
        failing.push(0)?;
    }
    let asked = Asked::of(alloc, row, failing)?;
    Ok(put_start(alloc, spawner, asked, out)?)
}
