//! Waits for children, and what they left.
use mt_children::ShSpawner;
use mt_edge::{ReadStep, Source};
use mt_rows::{Row, Stop, put_escaped};
use mt_spawn::{Left, Part, PartSource, Sizes, Spawner, Ticket, Waited};
use std::alloc::Global;

/// How many bytes are read at once.
const PIECE: usize = 65_536;

/// What sums of Adler-32 are taken modulo.
const ADLER: u32 = 65_521;

type Commands = ShSpawner<HostRuntime>;

fn put_made(out: &mut String, made: &Sizes) -> Result<(), Stop> {
    match made {
        Sizes::TooLarge { total } => write!(out, " too large {total}")?,
        Sizes::Whole { out: len, files } => {
            write!(out, " out {len}")?;
            for file in files.as_slice() {
                write!(out, " {}:{}", file.number, file.len)?;
            }
        }
    }
    Ok(())
}

fn put_left(out: &mut String, ticket: Ticket, left: &Left) -> Result<(), Stop> {
    write!(out, "Ended {} status {}", ticket.number, left.status)?;
    put_made(out, &left.made)?;
    out.push_str(" [")?;
    put_escaped(out, left.stderr.as_slice())?;
    out.push(']')?;
    Ok(())
}

/// Waits for a child, or only looks.
pub(crate) fn put_wait(
    spawner: &mut Commands,
    alloc: Global,
    patient: bool,
    out: &mut String,
) -> Result<(), Stop> {
    if spawner.is_holding() || spawner.live() == 0 {
        out.push_str("NoWait")?;
        return Ok(());
    }
    match spawner.wait(alloc, patient) {
        Waited::Ended { ticket, left } => put_left(out, ticket, &left)?,
        Waited::NotYet => out.push_str("NotYet")?,
        Waited::Failed(ticket) => write!(out, "Failed {}", ticket.number)?,
        Waited::Lost(ticket) => write!(out, "Lost {}", ticket.number)?,
        Waited::Memory => out.push_str("OutOfMemory")?,
    }
    Ok(())
}

// `out`, or the place of a record file.
fn part_of(row: &Row) -> Result<Part, Stop> {
    match row.text(1)? {
        "out" => Ok(Part::Out),
        _ => Ok(Part::File {
            index: row.number(1)?,
        }),
    }
}

/// Reads once: `read PART AT COUNT`.
pub(crate) fn put_read(
    spawner: &mut Commands,
    alloc: Global,
    row: &Row,
    out: &mut String,
) -> Result<(), Stop> {
    let mut piece = vec![in alloc; 0; row.number(3)?.clamp(1, PIECE as u64) as usize]?;
    match spawner.read(part_of(row)?, row.number(2)?, &mut piece) {
        ReadStep::Took(count) => {
            out.push('[')?;
            put_escaped(out, &piece[..count])?;
            out.push(']')?;
        }
        ReadStep::End => out.push_str("End")?,
        ReadStep::Failed => out.push_str("Failed")?,
    }
    Ok(())
}

// The Adler-32 of bytes behind others (RFC 1950).
fn adler(sums: (u32, u32), bytes: &[u8]) -> (u32, u32) {
    let (mut low, mut high) = sums;
    for byte in bytes {
        low = low.wrapping_add(*byte as u32) % ADLER;
        high = high.wrapping_add(low) % ADLER;
    }
    (low, high)
}

/// Reads all of a part by pieces, and puts how many bytes there are, and their Adler-32: `all PART`.
pub(crate) fn put_all(spawner: &mut Commands, row: &Row, out: &mut String) -> Result<(), Stop> {
    let mut source = PartSource::new(spawner, part_of(row)?, 0, u64::MAX);
    let mut piece = [0; PIECE];
    let mut len = 0_u64;
    let mut sums = (1, 0);
    'read: for _ in 0..u64::MAX {
        match source.read(&mut piece) {
            ReadStep::Took(count) => {
                len = len.saturating_add(count as u64);
                sums = adler(sums, &piece[..count]);
            }
            ReadStep::End => {
                write!(
                    out,
                    "{len} bytes {}",
                    sums.1.wrapping_mul(65_536).wrapping_add(sums.0)
                )?;
                return Ok(());
            }
            ReadStep::Failed => break 'read,
        }
    }
    out.push_str("Failed")?;
    Ok(())
}

/// Lets go what is held.
pub(crate) fn put_release(spawner: &mut Commands, out: &mut String) -> Result<(), Stop> {
    spawner.release();
    out.push_str("released")?;
    Ok(())
}

/// Ends a child: `kill TICKET`.
pub(crate) fn put_kill(spawner: &mut Commands, row: &Row, out: &mut String) -> Result<(), Stop> {
    let ticket = Ticket {
        number: row.number(1)?,
    };
    if !spawner.lives(ticket) {
        out.push_str("NoChild")?;
        return Ok(());
    }
    spawner.kill(ticket);
    out.push_str("killed")?;
    Ok(())
}
