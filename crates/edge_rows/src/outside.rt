//! Clocks, and the door that gives no link.
ghost use Rattle.std.specs.Prelude.{◌≤◌, IfOk};
ghost use Rattle.mt_base.specs.declared.limits.TheConstants.{LAST_MOMENT};

use crate::doors::visit;
use mt_edge::{Clock, FixedClock, LAST_MOMENT, MemClock, NoDoor};
use mt_rows::{Row, Stop};
use std::alloc::Global;

// The moments of so many calls of a clock.
fn put_moments<C: Clock>(clock: &mut C, calls: u64, out: &mut String) -> Result<(), Stop> {
    for call in 0..calls {
        let blank = if call == 0 { "" } else { " " };
        write!(out, "{blank}{}", clock.now())?;
    }
    Ok(())
}

// A moment that a row names.
fn moment_at(row: &Row, place: usize) -> Result<u64, Stop>
    ensures { IfOk result (λ m. m ≤ LAST_MOMENT) }
{
    let number = row.number(place)?;
    if number > LAST_MOMENT {
        return Err(Stop::NoSuchRow);
    }
    Ok(number)
}

// The moments of a clock of three moments and a later one, asked so often.
fn ask_clock(alloc: Global, row: &Row, out: &mut String) -> Result<(), Stop> {
    let calls = row.number(1)?;
    let first = moment_at(row, 2)?;
    let second = moment_at(row, 3)?;
    let third = moment_at(row, 4)?;
    let later = moment_at(row, 5)?;
    let listed = vec![in alloc; first, second, third]?;
    let mut clock = MemClock::new(listed, later);
    put_moments(&mut clock, calls, out)
}

/// Answers a row of this module; `false` for another row.
pub fn answer(alloc: Global, row: &Row, out: &mut String) -> Result<bool, Stop> {
    match row.call() {
        b"clock" => {
            let number = moment_at(row, 1)?;
            put_moments(&mut FixedClock::new(number), 2, out)?;
        }
        b"moments" => ask_clock(alloc, row, out)?,
        b"last-moment" => write!(out, "{LAST_MOMENT}")?,
        b"no-door" => visit(&mut NoDoor::new(), out)?,
        _ => return Ok(false),
    }
    Ok(true)
}
