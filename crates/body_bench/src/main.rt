//! `body_bench`: the work that the measurement of bodies takes the time of, over files of a folder: standard input is stored as a body
//! of the log, and sent from there to standard output, or joined to itself.
//!
//! - `work`: storing, sending and joining. `outcome`: why it was not done, as a line and a status.
#![tactic(auto)]

ghost use Rattle.std.specs.Option.{ForSome};
ghost use Rattle.mt_disk.specs.CrashModel.{IsAtRest};
ghost use Rattle.mt_log.specs.LogImage.{Fit};

mod outcome;
mod work;

use mt_adapters::{FileDisk, StdSink, StdSource, words_of};
use mt_disk::Disk;
use mt_log::Log;
use outcome::Fault;
use std::alloc::Global;
use std::process::ExitCode;
use work::{join_whole, send_whole, store_whole};

/// The limit of the log, in bytes: more than any measurement writes.
const LIMIT: u64 = 1 << 40;

/// What is done with standard input.
#[derive(Clone, Copy)]
enum Measure {
    /// It is stored.
    Store,
    /// It is stored, and sent to standard output.
    Copy,
    /// It is stored, and joined to itself.
    Join,
}

// The measure of this name.
fn measure_named(word: &str) -> Option<Measure> {
    match word {
        "store" => Some(Measure::Store),
        "copy" => Some(Measure::Copy),
        "join" => Some(Measure::Join),
        _ => None,
    }
}

// Says how many bytes were stored or joined, and how long the log is.
fn say(rt: HostRuntime, done: &str, len: u64, log: u64) -> Result<(), Fault> {
    match println!(rt; "{len} bytes {done}, the log has {log} bytes") {
        Ok(()) => Ok(()),
        Err(_) => Err(Fault::Output),
    }
}

// Stores standard input, and does with it what is asked for.
fn work_on<D: Disk>(
    alloc: Global,
    rt: HostRuntime,
    disk: &mut D,
    measure: Measure,
) -> Result<(), Fault>
    requires rest { IsAtRest D.seen D.may_leave disk.old }
    requires fit { ForSome (D.seen disk.old) Fit }
{
    let mut log = Log::open(alloc, disk, LIMIT)?;
    let mut source = StdSource::new(alloc, rt.stdin())?;
    let body = store_whole(alloc, &mut log, disk, &mut source)?;
    match measure {
        Measure::Store => say(rt, "stored", body.len, log.len()),
        Measure::Copy => {
            let mut sink = StdSink::over(rt.stdout());
            send_whole(alloc, &log, disk, &mut sink, &body)
        }
        Measure::Join => {
            let whole = join_whole(alloc, &mut log, disk, &body)?;
            say(rt, "joined", whole.len, log.len())
        }
    }
}

// Does what the words ask for.
fn run(rt: HostRuntime) -> Result<(), Fault> {
    let alloc = rt.alloc();
    let words = words_of(&rt, alloc)?;
    let [word, folder] = words.as_slice() else {
        return Err(Fault::Usage);
    };
    let Some(measure) = measure_named(word.as_str()) else {
        return Err(Fault::Usage);
    };
    let mut disk = FileDisk::new(alloc, rt, folder.as_str())?;
    work_on(alloc, rt, &mut disk, measure)
}

fn main(rt: HostRuntime) -> ExitCode {
    let status = match run(rt) {
        Ok(()) => 0,
        Err(fault) => {
            let _ = eprintln!(rt; "body_bench: {fault}");
            fault.status()
        }
    };
    ExitCode::from(status)
}
