//! What the commands of tasks do: a table of what each leaves.
ghost use Rattle.std.specs.Prelude.{◌≡◌, IfOk};
ghost use Rattle.mt_spawn.specs.Orders.{input_from, run_from};
ghost use Rattle.runner_rows.specs.Cases.{is_case, raw_in, said_asset, said_of, unknown};

use mt_base::{Bytes, Duplicate, Sequence, Text, copy_all};
use mt_rows::{Row, Stop};
use mt_spawn::{AssetSize, Order, Work};
use mt_types::{Made, Raw, RecordFile};
use std::alloc::{AllocError, Global};

/// What one command leaves of what it reads.
#[derive(Drop)]
pub struct Case {
    /// The command line.
    pub exec: Text,
    /// What it reads: its input, and then of each asset a bar, its name, `=` and its bytes.
    pub reads: Bytes,
    /// What it leaves.
    pub raw: Raw,
}

/// What commands leave. One that is not in the list, or reads something else, ends with 99.
#[derive(Drop)]
pub struct Cases {
    /// The first that fits is taken.
    pub list: Vec<Case>,
}

impl Duplicate for Case {
    fn copy(&self, alloc: Global) -> Result<Case, AllocError> {
        Ok(Case {
            exec: self.exec.copy(alloc)?,
            reads: self.reads.copy(alloc)?,
            raw: self.raw.copy(alloc)?,
        })
    }
}

/// The same cases once more.
pub fn copied(alloc: Global, cases: &[Case]) -> Result<Cases, AllocError> {
    let list = copy_all(alloc, cases)?;
    Ok(Cases { list })
}

// Whether it is of this command, and of what it reads.
fn is_case(case: &Case, exec: &Text, reads: &[u8]) -> bool
    ensures { result ≡ is_case exec.now reads.now case.now }
{
    case.exec == *exec && case.reads.as_slice() == reads
}

// What a command leaves that is not in the list.
fn unknown(alloc: Global, exec: &Text) -> Result<Raw, AllocError>
    ensures { IfOk result (λ raw. raw ≡ unknown exec.now) }
{
    Ok(Raw {
        status: 99,
        stderr: Bytes::from_slice(alloc, exec.as_bytes())?,
        made: Made::Whole {
            out: Bytes::from_slice(alloc, b"")?,
            files: Sequence::new(alloc),
        },
    })
}

// What a command leaves of what it reads.
fn raw_in(alloc: Global, cases: &[Case], exec: &Text, reads: &[u8]) -> Result<Raw, AllocError>
    ensures { IfOk result (λ raw. raw ≡ raw_in exec.now reads.now cases.now) }
{
    for case in cases {
        if is_case(case, exec, reads) {
            return case.raw.copy(alloc);
        }
    }
    unknown(alloc, exec)
}

// Adds an asset to what is read.
fn put_asset(said: &mut Vec<u8>, asset: &AssetSize, own: &[u8]) -> Result<(), AllocError>
    ensures { IfOk result (λ u. said.new.items ≡ said_asset said.old.items asset.now.name own.now) }
{
    said.extend_from_slice(b"|")?;
    said.extend_from_slice(asset.name.as_bytes())?;
    said.extend_from_slice(b"=")?;
    said.extend_from_slice(own)?;
    Ok(())
}

// What a command reads by its order.
fn said_of(alloc: Global, order: &Order, bytes: &[u8]) -> Result<Vec<u8>, AllocError>
    ensures { IfOk result (λ said. said.items ≡ said_of (run_from order.now bytes.now) (input_from order.now bytes.now)) }
{
    let (input, behind) = bytes.split_at(bytes.len().min(order.input as usize));
    let mut rest = behind;
    let mut said = Vec::from_slice(alloc, input)?;
    for asset in order.assets.as_slice() {
        let (own, others) = rest.split_at(rest.len().min(asset.len as usize));
        put_asset(&mut said, asset, own)?;
        rest = others;
    }
    Ok(said)
}

impl Work for Cases {
    ghost use Rattle.runner_rows.specs.Cases.{raw_of};

    ghost raw_of = { λ w. raw_of w.list.items };

    fn work(
        &self,
        alloc: Global,
        order: &Order,
        bytes: &[u8],
        _otherwise: bool,
    ) -> Result<Raw, AllocError> {
        let said = said_of(alloc, order, bytes)?;
        raw_in(alloc, self.list.as_slice(), &order.exec, said.as_slice())
    }
}

// The bytes at a place of a row.
fn bytes_at(alloc: Global, row: &Row, place: usize) -> Result<Bytes, Stop> {
    Ok(Bytes::from_slice(alloc, row.bytes(place)?)?)
}

// A number of 32 bits at a place of a row.
fn small_at(row: &Row, place: usize) -> Result<u32, Stop> {
    match u32::try_from(row.number(place)?) {
        Ok(number) => Ok(number),
        Err(_) => Err(Stop::NoSuchRow),
    }
}

// The record files that a row names from a place on, each by its number and its bytes.
fn files_at(alloc: Global, row: &Row, from: usize) -> Result<Sequence<RecordFile>, Stop> {
    let mut files = Sequence::new(alloc);
    for place in (from..row.len()).step_by(2) {
        files.push(RecordFile {
            number: small_at(row, place)?,
            bytes: bytes_at(alloc, row, place.saturating_add(1))?,
        })?;
    }
    Ok(files)
}

// What a row has a command write.
fn made_at(alloc: Global, row: &Row) -> Result<Made, Stop> {
    if row.text(0)? == "large" {
        return Ok(Made::TooLarge {
            total: row.number(5)?,
        });
    }
    Ok(Made::Whole {
        out: bytes_at(alloc, row, 5)?,
        files: files_at(alloc, row, 6)?,
    })
}

// What a row has a command leave.
fn raw_at(alloc: Global, row: &Row) -> Result<Raw, Stop> {
    Ok(Raw {
        status: small_at(row, 3)?,
        stderr: bytes_at(alloc, row, 4)?,
        made: made_at(alloc, row)?,
    })
}

/// The case of `case EXEC READS STATUS ERR OUT [NUMBER FILE]..` or `large EXEC READS STATUS ERR TOTAL`.
pub fn case_of(alloc: Global, row: &Row) -> Result<Case, Stop> {
    Ok(Case {
        exec: Text::from_str(alloc, row.text(1)?)?,
        reads: bytes_at(alloc, row, 2)?,
        raw: raw_at(alloc, row)?,
    })
}
