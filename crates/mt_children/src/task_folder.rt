//! The folder of a task, before its command runs: what the command reads.
ghost use Rattle.std.specs.Prelude.{◌≡◌, ◌≤◌, ◌<◌, IfOk, IfErr, OnOk};
ghost use Rattle.std.specs.Io.KnownBytes.{IsAtEnd};
ghost use Rattle.mt_base.specs.Counts.{NeverFell, Rose};

use crate::fault::Tool;
use crate::script::run_path;
use mt_edge::{ReadStep, Source};
use mt_spawn::{AssetSize, Order};
use std::alloc::{AllocError, Global};
use std::fs::{self, File};
use std::io;
use std::io::{ErrorKind, Write};
use std::rt::Files;

/// The name of a task's folder in that of its ticket, where a launcher runs it. Without one both are the same.
pub(crate) const TASK: &str = "task";

/// How many bytes of a source are read at once.
const PIECE: usize = 65_536;

/// Why a task was not started.
#[derive(Drop)]
pub(crate) enum Unstarted {
    /// A read of its bytes has failed.
    Source,
    /// A program that tasks need is not there.
    Missing(Tool),
    /// A call of the system has failed, or memory was wanting.
    System(io::Error),
}

/// The folder of a ticket.
pub(crate) fn path_of(alloc: Global, work: &str, number: u64) -> Result<String, AllocError> {
    format!(in alloc; "{work}/{number}")
}

/// The folder of a ticket's task.
pub(crate) fn task_path_of(
    alloc: Global,
    work: &str,
    number: u64,
    is_launched: bool,
) -> Result<String, AllocError> {
    if is_launched {
        format!(in alloc; "{work}/{number}/{TASK}")
    } else {
        path_of(alloc, work, number)
    }
}

/// Makes the first folder of a number from `from` on that nothing there has.
pub(crate) fn make_folder<R: Files>(rt: &R, alloc: Global, work: &str, from: u64) -> io::Result<u64>
    ensures { IfOk result (λ number. (from ≤ number) × (number < 18446744073709551615)) }
{
    for number in from..u64::MAX {
        let path = path_of(alloc, work, number)?;
        match fs::create_dir(rt, path.as_str()) {
            Ok(()) => return Ok(number),
            Err(error) if error.kind() == ErrorKind::AlreadyExists => {}
            Err(error) => return Err(error),
        }
    }
    Err(io::Error::from(ErrorKind::QuotaExceeded))
}

// Copies so many bytes of a source to a file, or all that are left.
fn copy<S: Source>(bytes: &mut S, count: u64, file: &mut File) -> Result<(), Unstarted>
    ensures source { IfErr result (λ e. e ≡ Unstarted.Source → Rose (S.read_faults bytes.old) (S.read_faults bytes.new)) }
    ensures reads { NeverFell (S.read_faults bytes.old) (S.read_faults bytes.new) }
    ensures stays { S.source_stays bytes.old bytes.new }
{
    let mut left = count;
    let mut piece = [0; PIECE];
    'copy: while left > 0 {
        let most = left.min(PIECE as u64) as usize;
        match bytes.read(&mut piece[..most]) {
            ReadStep::Took(taken) => {
                if let Err(error) = file.write_all(&piece[..taken]) {
                    return Err(Unstarted::System(error));
                }
                left -= taken as u64;
            }
            ReadStep::End => return Ok(()),
            ReadStep::Failed => return Err(Unstarted::Source),
        }
    }
    Ok(())
}

// Reads a source to its end.
fn drain<S: Source>(bytes: &mut S) -> Result<(), Unstarted>
    ensures ended { OnOk result (IsAtEnd (S.left bytes.new)) }
    ensures source { IfErr result (λ e. e ≡ Unstarted.Source → Rose (S.read_faults bytes.old) (S.read_faults bytes.new)) }
    ensures reads { NeverFell (S.read_faults bytes.old) (S.read_faults bytes.new) }
    ensures stays { S.source_stays bytes.old bytes.new }
{
    let mut piece = [0; 1];
    'read: for _ in 0..u64::MAX {
        match bytes.read(&mut piece) {
            ReadStep::Took(_) => {}
            ReadStep::End => return Ok(()),
            ReadStep::Failed => return Err(Unstarted::Source),
        }
    }
    Err(Unstarted::System(io::Error::from(ErrorKind::OutOfMemory)))
}

// Whether a name begins with a slash, and does not lead out of the folder that it stands in.
fn is_inside(name: &str) -> bool {
    name.starts_with('/') && name.split('/').all(|piece| piece != "..")
}

// Makes the file of an asset, and the folders above it.
fn make_asset<R: Files<File = File>>(
    rt: &R,
    alloc: Global,
    folder: &str,
    name: &str,
) -> io::Result<File> {
    if !is_inside(name) {
        return Err(io::Error::from(ErrorKind::InvalidFilename));
    }
    let path = format!(in alloc; "{folder}/assets{name}")?;
    if let Some((above, _)) = path.rsplit_once('/') {
        fs::create_dir_all(rt, above)?;
    }
    File::create(rt, path.as_str())
}

// Makes the input's file, the folder for records, with that of the task where it is missing, and the files of what the command writes:
// on a disk that has no room for them no task is started.
fn make_input<R: Files<File = File>>(rt: &R, alloc: Global, folder: &str) -> io::Result<File> {
    let spool = format!(in alloc; "{folder}/spool")?;
    fs::create_dir_all(rt, spool.as_str())?;
    for name in ["err", "out"] {
        let path = format!(in alloc; "{folder}/{name}")?;
        File::create(rt, path.as_str())?;
    }
    let input = format!(in alloc; "{folder}/input")?;
    File::create(rt, input.as_str())
}

// Fills a file, where it was made.
fn copy_to<S: Source>(bytes: &mut S, count: u64, made: io::Result<File>) -> Result<(), Unstarted>
    ensures source { IfErr result (λ e. e ≡ Unstarted.Source → Rose (S.read_faults bytes.old) (S.read_faults bytes.new)) }
    ensures reads { NeverFell (S.read_faults bytes.old) (S.read_faults bytes.new) }
    ensures stays { S.source_stays bytes.old bytes.new }
{
    match made {
        Ok(mut file) => copy(bytes, count, &mut file),
        Err(error) => Err(Unstarted::System(error)),
    }
}

// Makes the assets, one behind another.
fn fill_assets<R: Files<File = File>, S: Source>(
    rt: &R,
    alloc: Global,
    folder: &str,
    assets: &[AssetSize],
    bytes: &mut S,
) -> Result<(), Unstarted>
    ensures source { IfErr result (λ e. e ≡ Unstarted.Source → Rose (S.read_faults bytes.old) (S.read_faults bytes.new)) }
    ensures reads { NeverFell (S.read_faults bytes.old) (S.read_faults bytes.new) }
    ensures stays { S.source_stays bytes.old bytes.new }
{
    'assets: for asset in assets {
        let made = make_asset(rt, alloc, folder, asset.name.as_str());
        copy_to(bytes, asset.len, made)?;
    }
    Ok(())
}

/// Writes the file that a launcher runs, and closes it.
pub(crate) fn write_run<R: Files<File = File>>(
    rt: &R,
    alloc: Global,
    folder: &str,
    text: &str,
) -> io::Result<()> {
    let path = run_path(alloc, folder)?;
    let mut file = File::create(rt, path.as_str())?;
    file.write_all(text.as_bytes())
}

/// Fills the folder of an order: its input and its assets, of the bytes of a source, which is read to its end.
pub(crate) fn fill<R: Files<File = File>, S: Source>(
    rt: &R,
    alloc: Global,
    folder: &str,
    order: &Order,
    bytes: &mut S,
) -> Result<(), Unstarted>
    ensures ended { OnOk result (IsAtEnd (S.left bytes.new)) }
    ensures source { IfErr result (λ e. e ≡ Unstarted.Source → Rose (S.read_faults bytes.old) (S.read_faults bytes.new)) }
    ensures reads { NeverFell (S.read_faults bytes.old) (S.read_faults bytes.new) }
    ensures stays { S.source_stays bytes.old bytes.new }
{
    let made = make_input(rt, alloc, folder);
    copy_to(bytes, order.input, made)?;
    fill_assets(rt, alloc, folder, order.assets.as_slice(), bytes)?;
    drain(bytes)
}
