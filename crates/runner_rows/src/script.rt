//! What becomes of the calls of a spawner, and what it counted.
use crate::cases::Cases;
use mt_rows::{Row, Stop};
use mt_spawn::{MemSpawner, Script};
use std::alloc::{AllocError, Global};

/// Takes a row of the script of the next spawner.
pub fn set_script(alloc: Global, script: &mut Script, row: &Row) -> Result<(), Stop> {
    let numbers = row.numbers(alloc, 2)?;
    match row.text(1)? {
        "waits" => script.waits = numbers,
        "starts-fail" => script.starts_fail = numbers,
        "waits-fail" => script.waits_fail = numbers,
        "waits-lose" => script.waits_lose = numbers,
        "reads-fail" => script.reads_fail = numbers,
        _ => return Err(Stop::NoSuchRow),
    }
    Ok(())
}

/// Appends what a spawner counted.
pub fn put_counts(spawner: &MemSpawner<Cases>, out: &mut String) -> Result<(), AllocError> {
    write!(
        out,
        "live {}, starts {}, company {}, waits {}, faults {}",
        spawner.live(),
        spawner.starts(),
        spawner.company(),
        spawner.waits(),
        spawner.faults()
    )
}
