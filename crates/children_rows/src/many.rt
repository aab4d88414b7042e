//! Many commands in turn, some of them beside each other.
use mt_base::{Sequence, Text};
use mt_children::ShSpawner;
use mt_edge::MemSource;
use mt_rows::{Row, Stop};
use mt_spawn::{Begun, Order, Spawner, Waited};
use std::alloc::Global;

type Commands = ShSpawner<HostRuntime>;

// An order of a command without input.
fn order(alloc: Global, exec: &str) -> Result<Order, Stop> {
    Ok(Order {
        job: 1,
        phase: 0,
        exec: Text::from_str(alloc, exec)?,
        init: None,
        base: Text::from_str(alloc, "/l/jobs/j/stor/base.")?,
        object: None,
        reducer: Some(0),
        input: 0,
        assets: Sequence::new(alloc),
    })
}

// Waits for one child, and lets go what it left; whether one ended with the status 0.
fn end_one(spawner: &mut Commands, alloc: Global) -> bool {
    if spawner.is_holding() || spawner.live() == 0 {
        return false;
    }
    let waited = spawner.wait(alloc, true);
    spawner.release();
    matches!(waited, Waited::Ended { left, .. } if left.status == 0)
}

/// Runs so many commands, at most so many of them beside each other: `many COUNT SLOTS EXEC`.
pub(crate) fn put_many(
    spawner: &mut Commands,
    alloc: Global,
    row: &Row,
    out: &mut String,
) -> Result<(), Stop> {
    let order = order(alloc, row.text(3)?)?;
    let slots = row.number(2)?;
    let mut ended = 0_u64;
    for _ in 0..row.number(1)? {
        if spawner.live() as u64 >= slots && end_one(spawner, alloc) {
            ended = ended.saturating_add(1);
        }
        if spawner.is_holding() {
            return Err(Stop::NoSuchRow);
        }
        if spawner.start(alloc, &order, &mut MemSource::new(alloc, Vec::new(alloc)))
            == Begun::Failed
        {
            out.push_str("Failed ")?;
        }
    }
    for _ in 0..slots {
        if end_one(spawner, alloc) {
            ended = ended.saturating_add(1);
        }
    }
    write!(out, "{ended} ended well")?;
    Ok(())
}
