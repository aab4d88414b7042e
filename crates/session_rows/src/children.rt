//! Children that write what they read, by a script.
ghost use Rattle.std.specs.Prelude.{◌≡◌, IfOk};
ghost use Rattle.mt_spawn.specs.Orders.{input_from};
ghost use Rattle.session_rows.specs.Children.{echoed};

use mt_base::{Bytes, Sequence};
use mt_rows::{Row, Stop};
use mt_spawn::{MemSpawner, Order, Script, Work};
use mt_types::{Made, Raw};
use std::alloc::{AllocError, Global};

/// A child writes its input to standard output and ends with 0; the other way with 7.
#[derive(Drop)]
pub struct Echo;

// The input on standard output.
fn echoed(alloc: Global, input: &[u8], otherwise: bool) -> Result<Raw, AllocError>
    ensures { IfOk result (λ raw. raw ≡ echoed input.now otherwise) }
{
    Ok(Raw {
        status: if otherwise { 7 } else { 0 },
        stderr: Bytes::from_slice(alloc, b"")?,
        made: Made::Whole {
            out: Bytes::from_slice(alloc, input)?,
            files: Sequence::new(alloc),
        },
    })
}

// The input of an order in the bytes that came with it.
fn input_of<'a>(order: &Order, bytes: &'a [u8]) -> &'a [u8]
    ensures { result.now ≡ input_from order.now bytes.now }
{
    &bytes[..bytes.len().min(order.input as usize)]
}

impl Work for Echo {
    ghost use Rattle.session_rows.specs.Children.{raw_of};

    ghost raw_of = { λ w. raw_of };

    fn work(
        &self,
        alloc: Global,
        order: &Order,
        bytes: &[u8],
        otherwise: bool,
    ) -> Result<Raw, AllocError> {
        echoed(alloc, input_of(order, bytes), otherwise)
    }
}

/// Takes the numbers of a row behind its first two words.
pub fn set_numbers(alloc: Global, numbers: &mut Vec<u64>, row: &Row) -> Result<(), Stop> {
    *numbers = row.numbers(alloc, 2)?;
    Ok(())
}

/// Takes a row of the script of the next children.
pub fn set_script(alloc: Global, script: &mut Script, row: &Row) -> Result<(), Stop> {
    match row.text(1)? {
        "waits" => set_numbers(alloc, &mut script.waits, row),
        "otherwise" => set_numbers(alloc, &mut script.otherwise, row),
        "starts-fail" => set_numbers(alloc, &mut script.starts_fail, row),
        "waits-fail" => set_numbers(alloc, &mut script.waits_fail, row),
        "reads-fail" => set_numbers(alloc, &mut script.reads_fail, row),
        _ => Err(Stop::NoSuchRow),
    }
}

/// Appends a script to one, list by list.
pub fn extend_script(script: &mut Script, from: &Script) -> Result<(), AllocError> {
    script.waits.extend_from_slice(&from.waits)?;
    script.otherwise.extend_from_slice(&from.otherwise)?;
    script.starts_fail.extend_from_slice(&from.starts_fail)?;
    script.waits_fail.extend_from_slice(&from.waits_fail)?;
    script.reads_fail.extend_from_slice(&from.reads_fail)
}

/// The same script once more.
pub fn copied(alloc: Global, script: &Script) -> Result<Script, AllocError> {
    let mut copy = Script::new(alloc);
    extend_script(&mut copy, script)?;
    Ok(copy)
}

/// What a spawner counted.
#[derive(Clone, Copy, Debug, PartialEq, Eq)]
pub struct Counts {
    starts: u64,
    live: usize,
    company: u64,
    waits: u64,
    faults: u64,
}

impl Counts {
    /// Nothing.
    pub fn none() -> Counts {
        Counts {
            starts: 0,
            live: 0,
            company: 0,
            waits: 0,
            faults: 0,
        }
    }

    /// The counts of a spawner.
    pub fn of(spawner: &MemSpawner<Echo>) -> Counts {
        Counts {
            starts: spawner.starts(),
            live: spawner.live(),
            company: spawner.company(),
            waits: spawner.waits(),
            faults: spawner.faults(),
        }
    }

    /// Appends them.
    pub fn put(self, out: &mut String) -> Result<(), AllocError> {
        write!(
            out,
            "starts {}, live {}, company {}, waits {}, faults {}",
            self.starts, self.live, self.company, self.waits, self.faults
        )
    }
}
