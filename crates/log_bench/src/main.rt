//! `log_bench`: the work that the benchmark of the log takes the time of, over files of a folder.
//!
//! - `words`: what is to be done.
//! - `work`: appends, a run and digests, each with what it left.
//! - `outcome`: what was done, or why not, as a line and a status.
#![tactic(auto)]

ghost use Rattle.std.specs.Option.{ForSome};
ghost use Rattle.mt_disk.specs.CrashModel.{IsAtRest};
ghost use Rattle.mt_log.specs.LogImage.{Fit};

mod outcome;
mod words;
mod work;

use mt_adapters::{FileDisk, words_of};
use mt_disk::Disk;
use mt_log::Log;
use outcome::{Done, Fault};
use std::alloc::{AllocError, Global};
use std::process::ExitCode;
use words::{Command, Load, Work};
use work::{add_each, add_run, digests, payload_of};

/// The limit of the log, in bytes: more than any measurement writes.
const LIMIT: u64 = 1 << 40;

// Opens the log of a disk, and adds the records that are asked for.
fn work_on<D: Disk>(alloc: Global, disk: &mut D, work: Work) -> Result<Done, Fault>
    requires rest { IsAtRest D.seen D.may_leave disk.old }
    requires fit { ForSome (D.seen disk.old) Fit }
{
    let mut log = Log::open(alloc, disk, LIMIT)?;
    let records = match work {
        Work::Open => 0,
        Work::Append(load) => {
            let payload = payload_of(alloc, load.size)?;
            add_each(&mut log, disk, payload.as_slice(), load.count)?;
            load.count
        }
        Work::Run(load) => {
            let payload = payload_of(alloc, load.size)?;
            add_run(&mut log, disk, payload.as_slice(), load.count)?;
            load.count
        }
    };
    Ok(Done::Log {
        records,
        len: log.len(),
    })
}

// Does what the words ask for.
fn run(rt: HostRuntime) -> Result<Done, Fault> {
    let alloc = rt.alloc();
    let words = words_of(&rt, alloc)?;
    match Command::read(&words) {
        Some(Command::Digest(Load { count, size })) => {
            let payload = payload_of(alloc, size)?;
            Ok(Done::Digest(digests(payload.as_slice(), count)))
        }
        Some(Command::OnLog { folder, work }) => {
            let mut disk = FileDisk::new(alloc, rt, folder)?;
            work_on(alloc, &mut disk, work)
        }
        None => Err(Fault::Usage),
    }
}

fn main(rt: HostRuntime) -> ExitCode {
    let status = match run(rt) {
        Ok(done) => match println!(rt; "{done}") {
            Ok(()) => 0,
            Err(_) => Fault::Output.status(),
        },
        Err(fault) => {
            let _ = eprintln!(rt; "log_bench: {fault}");
            fault.status()
        }
    };
    ExitCode::from(status)
}
