//! `mantad`: the store over files, standard input and standard output, or over the connections to an address, with tasks under a
//! shell. It makes the objects and calls `mt_server`, or `mt_drill` for a drill.
//!
//! - `drilling`: a drill by its words. `help`: what `--help` and `--version` print. `tell`: what is said on standard error. `helper`: where the program of the helpers is.
#![tactic(auto)]

mod drilling;
mod help;
mod helper;
mod tell;

ghost use Rattle.std.specs.Prelude.{◌≡◌, ◌≤◌, ◌+◌, [], IfOk, IfSome, None};
ghost use Rattle.std.specs.Option.{ForSome};
ghost use Rattle.mt_base.specs.declared.limits.TheConstants.{LAST_MOMENT};
ghost use Rattle.mt_disk.specs.CrashModel.{IsAtRest};
ghost use Rattle.mt_log.specs.LogImage.{Fit};
ghost use Rattle.mt_adapters.specs.Device.{first_door};
ghost use Rattle.mt_children.specs.State.{IsIdle};

use drilling::run_drill;
use help::print_help;
use helper::helper_of;
use mt_adapters::{FileDisk, Standard, StdSink, StdSource, SystemClock, TcpDoor, Wakes, words_of};
use mt_children::ShSpawner;
use mt_disk::{Disk, MemDisk, Room};
use mt_edge::{Clock, Door, FixedClock, NoDoor};
use mt_server::mantad;
use mt_settings::{Mode, Settings, SettingsError};
use mt_spawn::{NoSpawner, Spawner};
use std::alloc::{AllocError, Global};
use std::process::ExitCode;
use std::rc::Rc;
use std::time::Duration;
use tell::{tell_door, tell_status, tell_tasks, tell_usage};

/// The status where an allocation fails before the store is called.
const OUT_OF_MEMORY: u8 = 8;

/// The status where the door failed.
const NO_LINK: u8 = 10;

/// The command of a drill.
const DRILL: &str = "drill";

/// How many seconds a serve that is over waits for a task to end, before it leaves the rest to the next start.
const PATIENCE: u64 = 60;

/// The room of the disk that stands for a store where the words name none. Nothing is written to it.
const NO_STORE: Room = Room {
    file: 0,
    calls: 0,
    written: 0,
};

// Calls the store over these ends, and standard input and output.
fn call<D: Disk, P: Spawner, C: Clock, W: Door>(
    rt: HostRuntime,
    words: &[String],
    disk: &mut D,
    spawner: &mut P,
    clock: &mut C,
    door: &mut W,
) -> Result<u8, AllocError>
    requires rest { IsAtRest D.seen D.may_leave disk.old }
    requires fit { ForSome (D.seen disk.old) Fit }
    requires door { W.over door.old + W.kept door.old ≡ W.taken door.old }
    requires none_kept { W.kept door.old ≡ 0 }
    requires idle { (P.seen spawner.old).live ≡ [] }
    requires free { P.held spawner.old ≡ None }
{
    let alloc = rt.alloc();
    let mut source = StdSource::new(alloc, rt.stdin())?;
    let mut sink = StdSink::over(rt.stdout());
    Ok(mantad(
        alloc,
        words,
        &mut source,
        &mut sink,
        disk,
        spawner,
        clock,
        door,
    ))
}

// Calls the store at the one moment that the words ask for, or by the system's time.
fn call_at<D: Disk, P: Spawner, W: Door>(
    rt: HostRuntime,
    words: &[String],
    at: Option<u64>,
    disk: &mut D,
    spawner: &mut P,
    door: &mut W,
) -> Result<u8, AllocError>
    requires rest { IsAtRest D.seen D.may_leave disk.old }
    requires fit { ForSome (D.seen disk.old) Fit }
    requires door { W.over door.old + W.kept door.old ≡ W.taken door.old }
    requires none_kept { W.kept door.old ≡ 0 }
    requires idle { (P.seen spawner.old).live ≡ [] }
    requires free { P.held spawner.old ≡ None }
    requires moment { IfSome at (λ moment. moment ≤ LAST_MOMENT) }
{
    match at {
        Some(moment) => call(rt, words, disk, spawner, &mut FixedClock::new(moment), door),
        None => call(rt, words, disk, spawner, &mut SystemClock::new(rt), door),
    }
}

// Tasks under a shell, in the folder, with the helpers and by the launcher that the words ask for.
fn tasks_of(
    rt: HostRuntime,
    words: &[String],
    settings: &Settings,
) -> Result<ShSpawner<HostRuntime>, AllocError>
    ensures { IfOk result (λ s. IsIdle s) }
{
    let alloc = rt.alloc();
    let helper = helper_of(rt, words, settings.helper.as_str())?;
    let work = settings.work.as_str();
    let spawner = ShSpawner::new(alloc, rt, work, helper.as_str(), settings.login.as_str())?;
    match &settings.launcher {
        Some(launcher) => spawner.through(launcher.as_str()),
        None => Ok(spawner),
    }
}

// Calls the store over standard input and output.
fn session<D: Disk>(
    rt: HostRuntime,
    words: &[String],
    settings: &Settings,
    disk: &mut D,
) -> Result<u8, AllocError>
    requires rest { IsAtRest D.seen D.may_leave disk.old }
    requires fit { ForSome (D.seen disk.old) Fit }
    requires moment { IfSome settings.now.at (λ moment. moment ≤ LAST_MOMENT) }
{
    let mut spawner = tasks_of(rt, words, settings)?;
    let mut door = NoDoor::new();
    let status = call_at(rt, words, settings.at, disk, &mut spawner, &mut door)?;
    tell_tasks(&rt, status, spawner.failure());
    Ok(status)
}

// The same, which are waited for no longer than `PATIENCE` once a serve is over. A child that ends wakes these.
fn waking_tasks_of(
    rt: HostRuntime,
    words: &[String],
    settings: &Settings,
    wakes: Rc<Wakes>,
) -> Result<ShSpawner<HostRuntime>, AllocError>
    ensures { IfOk result (λ s. IsIdle s) }
{
    let spawner = tasks_of(rt, words, settings)?;
    Ok(spawner.within(Duration::from_secs(PATIENCE)).waking(wakes))
}

// Calls the store over the connections of a door, and says why it ended.
fn serve_at<D: Disk>(
    rt: HostRuntime,
    words: &[String],
    settings: &Settings,
    disk: &mut D,
    spawner: &mut ShSpawner<HostRuntime>,
    door: &mut TcpDoor<HostRuntime>,
) -> Result<u8, AllocError>
    requires rest { IsAtRest D.seen D.may_leave disk.old }
    requires fit { ForSome (D.seen disk.old) Fit }
    requires moment { IfSome settings.now.at (λ moment. moment ≤ LAST_MOMENT) }
    requires spawner { IsIdle spawner.old }
    requires door { door.old ≡ first_door }
{
    let status = call_at(rt, words, settings.at, disk, spawner, door)?;
    if let Mode::Serve { listen, .. } = &settings.mode
        && status == NO_LINK
    {
        tell_door(&rt, listen.as_str(), door.failure());
    }
    tell_tasks(&rt, status, spawner.failure());
    Ok(status)
}

// Calls the store over the connections to an address.
fn serve<D: Disk>(
    rt: HostRuntime,
    words: &[String],
    settings: &Settings,
    disk: &mut D,
    listen: &str,
) -> Result<u8, AllocError>
    requires rest { IsAtRest D.seen D.may_leave disk.old }
    requires fit { ForSome (D.seen disk.old) Fit }
    requires moment { IfSome settings.now.at (λ moment. moment ≤ LAST_MOMENT) }
{
    let alloc = rt.alloc();
    let wakes = Rc::new(alloc, Wakes::new())?;
    let mut spawner = waking_tasks_of(rt, words, settings, wakes.clone()?)?;
    let mut door = TcpDoor::new(alloc, rt, listen)?.waking(wakes);
    serve_at(rt, words, settings, disk, &mut spawner, &mut door)
}

// Calls the store over the files that the words ask for.
fn call_on_files(rt: HostRuntime, words: &[String], settings: &Settings) -> Result<u8, AllocError>
    requires moment { IfSome settings.now.at (λ moment. moment ≤ LAST_MOMENT) }
{
    let store = settings.store.as_str();
    let is_serve = matches!(settings.mode, Mode::Serve { .. });
    let mut disk = FileDisk::new(rt.alloc(), rt, store)?.telling(is_serve);
    let status = match &settings.mode {
        Mode::Session => session(rt, words, settings, &mut disk)?,
        Mode::Serve { listen, .. } => serve(rt, words, settings, &mut disk, listen.as_str())?,
    };
    tell_status(&rt, status, store, disk.failure());
    Ok(status)
}

// Says a usage line, by a call of the store on words that it doesn't take. It reaches no disk.
fn refuse(rt: HostRuntime, words: &[String]) -> Result<u8, AllocError> {
    let mut disk = MemDisk::new(rt.alloc(), b"", b"", b"", NO_STORE, &[])?;
    let mut spawner = NoSpawner::new();
    let mut door = NoDoor::new();
    call_at(rt, words, None, &mut disk, &mut spawner, &mut door)
}

// Calls the store by its words, which ask for a session or a serve.
fn run_service(rt: HostRuntime, words: &[String]) -> Result<u8, AllocError> {
    match Settings::read(rt.alloc(), words) {
        Ok(settings) => call_on_files(rt, words, &settings),
        Err(SettingsError::Usage(fault)) => {
            tell_usage(&rt, words, fault);
            refuse(rt, words)
        }
        Err(SettingsError::Memory) => Err(AllocError),
    }
}

// Does what the words ask for.
fn run(rt: HostRuntime) -> Result<u8, AllocError> {
    let words = words_of(&rt, rt.alloc())?;
    if let Some(status) = print_help(rt, &words) {
        return Ok(status);
    }
    match words.as_slice() {
        [command, behind @ ..] if command.as_str() == DRILL => match run_drill(rt, behind)? {
            Some(status) => Ok(status),
            None => refuse(rt, &words),
        },
        _ => run_service(rt, &words),
    }
}

fn main(rt: HostRuntime) -> ExitCode {
    // Where a number can't be held, none is free.
    let _held = Standard::hold(&rt);
    match run(rt) {
        Ok(status) => ExitCode::from(status),
        Err(AllocError) => {
            tell_status(&rt, OUT_OF_MEMORY, "", None);
            ExitCode::from(OUT_OF_MEMORY)
        }
    }
}
