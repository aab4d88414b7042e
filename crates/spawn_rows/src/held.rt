//! Waits, and what is read of an ended child.
ghost use Rattle.std.specs.Prelude.{◌≡◌, ◌<◌, true, None, length};
ghost use Rattle.mt_spawn.specs.Children.{lives};

use mt_edge::{ReadStep, Source};
use mt_rows::{Row, Stop, put_escaped};
use mt_spawn::{Left, Part, PartSource, Sizes, Spawner, Ticket, Waited};
use std::alloc::{AllocError, Global};

/// The most bytes that a row reads at once.
const MOST_READ: u64 = 64;

/// How often a part is read at most, and how many bytes.
const READS: u32 = 9;

const PIECE: usize = 4;

/// What a row may ask of a spawner as it stands.
#[derive(Clone, Copy)]
pub struct Standing {
    /// Nothing is held.
    pub is_free: bool,
    /// A child lives.
    pub is_some: bool,
    /// The ticket that the row names.
    pub ticket: Ticket,
    /// A child of it lives.
    pub is_alive: bool,
}

// Appends bytes as a table shows them, and `\e` for none.
fn put_bytes(out: &mut String, bytes: &[u8]) -> Result<(), AllocError> {
    if bytes.is_empty() {
        return out.push_str("\\e");
    }
    put_escaped(out, bytes)
}

fn put_sizes(out: &mut String, made: &Sizes) -> Result<(), AllocError> {
    match made {
        Sizes::TooLarge { total } => write!(out, ", too large {total}"),
        Sizes::Whole { out: len, files } => {
            write!(out, ", out {len}, files")?;
            for file in files.as_slice() {
                write!(out, " {}:{}", file.number, file.len)?;
            }
            Ok(())
        }
    }
}

fn put_left(out: &mut String, left: &Left) -> Result<(), AllocError> {
    write!(out, "status {}, stderr ", left.status)?;
    put_bytes(out, left.stderr.as_slice())?;
    put_sizes(out, &left.made)
}

fn put_waited(out: &mut String, waited: &Waited) -> Result<(), AllocError> {
    match waited {
        Waited::Ended { ticket, left } => {
            write!(out, "Ended {}: ", ticket.number)?;
            put_left(out, left)
        }
        Waited::NotYet => out.push_str("NotYet"),
        Waited::Failed(ticket) => write!(out, "Failed {}", ticket.number),
        Waited::Lost(ticket) => write!(out, "Lost {}", ticket.number),
        Waited::Memory => out.push_str("Memory"),
    }
}

// Waits for a child, or only looks.
fn wait<P: Spawner>(
    alloc: Global,
    spawner: &mut P,
    standing: Standing,
    patient: bool,
    out: &mut String,
) -> Result<(), Stop>
    requires free { standing.is_free ≡ true → P.held spawner.old ≡ None }
    requires some { standing.is_some ≡ true → 0 < length (P.seen spawner.old).live }
{
    if !standing.is_free || !standing.is_some {
        return Err(Stop::NoSuchRow);
    }
    let waited = spawner.wait(alloc, patient);
    Ok(put_waited(out, &waited)?)
}

// The part that a row names.
fn part_of(row: &Row) -> Result<Part, Stop> {
    match row.text(1)? {
        "out" => Ok(Part::Out),
        _ => Ok(Part::File {
            index: row.number(1)?,
        }),
    }
}

// `read PART AT COUNT`.
fn read<P: Spawner>(
    alloc: Global,
    spawner: &mut P,
    row: &Row,
    out: &mut String,
) -> Result<(), Stop> {
    let (part, at, count) = (part_of(row)?, row.number(2)?, row.number(3)?);
    if count == 0 || count > MOST_READ {
        return Err(Stop::NoSuchRow);
    }
    let mut into = Vec::new(alloc);
    into.resize(count as usize, 0)?;
    Ok(put_read(spawner, part, at, &mut into, out)?)
}

// Reads a piece, and prints what that did.
fn put_read<P: Spawner>(
    spawner: &mut P,
    part: Part,
    at: u64,
    into: &mut [u8],
    out: &mut String,
) -> Result<(), AllocError>
    requires { 0 < length into.old }
{
    let step = spawner.read(part, at, into);
    write!(out, "{step:?}")?;
    if let ReadStep::Took(count) = step {
        out.push(' ')?;
        put_bytes(out, &into[..count])?;
    }
    Ok(())
}

// `part PART FROM TO`: reads to the end, or so often that it is seen not to end.
fn read_part<P: Spawner>(spawner: &mut P, row: &Row, out: &mut String) -> Result<(), Stop> {
    let (part, from, to) = (part_of(row)?, row.number(2)?, row.number(3)?);
    let mut source = PartSource::new(spawner, part, from, to);
    write!(out, "{} bytes:", source.len())?;
    Ok(put_source(&mut source, out)?)
}

fn put_source<S: Source>(source: &mut S, out: &mut String) -> Result<(), AllocError> {
    for _ in 0..READS {
        let mut into = [0; PIECE];
        let step = source.read(&mut into);
        write!(out, " {step:?}")?;
        match step {
            ReadStep::Took(count) => {
                out.push(' ')?;
                put_bytes(out, &into[..count])?;
            }
            ReadStep::End => return Ok(()),
            ReadStep::Failed => {}
        }
    }
    Ok(())
}

// Ends the child of a ticket.
fn kill<P: Spawner>(spawner: &mut P, standing: Standing) -> Result<(), Stop>
    requires { standing.is_alive ≡ true → lives standing.ticket.number (P.seen spawner.old).live ≡ true }
{
    if !standing.is_alive {
        return Err(Stop::NoSuchRow);
    }
    spawner.kill(standing.ticket);
    Ok(())
}

/// Answers a row of the children that live, and of the one that has ended.
pub fn answer<P: Spawner>(
    alloc: Global,
    spawner: &mut P,
    standing: Standing,
    row: &Row,
    out: &mut String,
) -> Result<(), Stop>
    requires free { standing.is_free ≡ true → P.held spawner.old ≡ None }
    requires some { standing.is_some ≡ true → 0 < length (P.seen spawner.old).live }
    requires alive { standing.is_alive ≡ true → lives standing.ticket.number (P.seen spawner.old).live ≡ true }
{
    match row.text(0)? {
        "wait" => wait(alloc, spawner, standing, true, out),
        "look" => wait(alloc, spawner, standing, false, out),
        "read" => read(alloc, spawner, row, out),
        "part" => read_part(spawner, row, out),
        "kill" => kill(spawner, standing),
        "release" => {
            spawner.release();
            Ok(())
        }
        _ => Err(Stop::NoSuchRow),
    }
}
