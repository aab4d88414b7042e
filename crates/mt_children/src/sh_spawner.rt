//! A spawner of commands under a shell.
ghost use Rattle.std.specs.Prelude.{◌≡◌, ◌+◌, ◌<◌, ◌^◌, ℕ, IfOk, List, ⊤, min, string_bytes};
ghost use Rattle.mt_children.specs.State.{folder_path, is_from_root};

use crate::fault::{TaskFault, Teller};
use crate::group::{end, end_launched, end_rest, end_rest_launched};
use crate::held::Held;
use crate::needs::{Unready, prepare};
use crate::outcome::{is_folder, told_of};
use crate::quiet::quiet_command;
use crate::rests::Rests;
use crate::running::{Children, Found};
use crate::script::{command_of, launch_of, run_of};
use crate::slice::Slice;
use crate::task_folder::{Unstarted, fill, make_folder, path_of, task_path_of, write_run};
use mt_adapters::Wakes;
use mt_base::{Duplicate, NUMBERS_END};
use mt_edge::{ReadStep, Source};
use mt_spawn::{Begun, Left, Order, Part, Spawner, Ticket, Waited};
use std::alloc::{AllocError, Global};
use std::fs::File;
use std::io::{Eprint, ErrorKind};
use std::marker::Model;
use std::os::fd::AsRawFd;
use std::process::{Child, Command, ExitStatus, Processes, SystemProcess};
use std::rc::Rc;
use std::rt::Files;
use std::time::{Clock, Duration};
use std::{io, thread};

/// The first pause between two looks at the children, in microseconds; each further one is twice as long.
const FIRST_PAUSE: u64 = 50;

/// The longest pause between two looks, in microseconds.
const LAST_PAUSE: u64 = 2_000;

/// How many seconds pass before it is looked again what is to be done behind a call that failed.
const FAILED_PAUSE: u64 = 1;

/// Commands under `sh`, each in a folder of its own below the work folder, which is made where it is missing. A child is the first
/// of a session and of a group, which is ended as a whole. No bytes of a child are ever whole in memory, and one file of its is open
/// at a time. It tells nothing of what a command gives. Behind a start that failed no other is tried for a second, then two, and at most
/// thirty, and each answers `Failed`. A new cause of a failure is said on standard error, at most once a minute. Beside a door, which it
/// wakes where a child ends, it takes ended children for 20 ms, and then none until the next look. With a launcher each child is one, and what it has run tells
/// the status; a launcher that ended without that is a fault, and its ticket `Failed`.
#[derive(Drop)]
pub struct ShSpawner<R> {
    rt: R,
    alloc: Global,
    // Begins with a slash or with `./`, so that a shell takes it for a folder and for nothing else.
    work: String,
    helper: String,
    login: String,
    launcher: Option<String>,
    patience: Option<Duration>,
    is_ready: bool,
    children: Children,
    held: Option<Held>,
    faults: u64,
    waits: u64,
    company: u64,
    failure: Option<TaskFault>,
    rests: Rests,
    teller: Teller,
    wakes: Option<Rc<Wakes>>,
    slice: Slice,
}

impl<R> Model for ShSpawner<R> {
    ghost use Rattle.std.specs.Duration.{as_nanos};
    ghost use Rattle.std.specs.Prelude.{◌≡◌, nat_lt, is_some, option_map, string_bytes};
    ghost use Rattle.mt_children.specs.State.{ShState};

    ghost Value = { ShState };

    ghost view = { λ s. record { settings = record { work = string_bytes s.work; helper = string_bytes s.helper; login = string_bytes s.login; launcher = option_map string_bytes s.launcher; patience = option_map as_nanos s.patience; wakes = is_some s.wakes }; live = s.children.items.items; faults = s.faults; waits = s.waits; company = s.company; held = s.held } };

    ghost invariant = { λ s. is_some s.failure ≡ nat_lt 0 s.faults };
}

impl<R> ShSpawner<R> {
    ghost use Rattle.std.specs.Duration.{as_nanos};
    ghost use Rattle.std.specs.Prelude.{◌≡◌, nat_lt, IfOk, is_some, length};
    ghost use Rattle.mt_adapters.specs.Device.{one_more};
    ghost use Rattle.mt_spawn.specs.Children.{lives};
    ghost use Rattle.mt_children.specs.State.{first_state, with_launcher, with_patience, with_wakes};

    /// Commands whose folders stand below `work`, which find the helpers at `helper`, a program's name or its path, and whose outputs
    /// belong to `login`. It makes no call of the system.
    pub fn new(
        alloc: Global,
        rt: R,
        work: &str,
        helper: &str,
        login: &str,
    ) -> Result<ShSpawner<R>, AllocError>
    where
        R: Drop,
        ensures { IfOk result (λ s. s ≡ first_state work.now helper.now login.now) }
    {
        Ok(ShSpawner {
            rt,
            alloc,
            work: folder_path(alloc, work)?,
            helper: String::from_str(alloc, helper)?,
            login: String::from_str(alloc, login)?,
            launcher: None,
            patience: None,
            is_ready: false,
            children: Children::new(alloc),
            held: None,
            faults: 0,
            waits: 0,
            company: 0,
            failure: None,
            rests: Rests::new(),
            teller: Teller::new(),
            wakes: None,
            slice: Slice::new(),
        })
    }

    /// The same spawner, of which a wait in which no child ends takes about so long. Unless it is asked for, a wait takes until a child ends.
    pub fn within(mut self, patience: Duration) -> ShSpawner<R>
        ensures { result ≡ with_patience (as_nanos patience) self }
    {
        self.patience = Some(patience);
        self
    }

    /// The same spawner, whose commands a program runs elsewhere: `launcher`, a name or a path from the root. It is given `sh` and the
    /// path of a file, in the ticket's folder, and has to run them once where that folder has the same path, to end when they have, and to end
    /// them when it is asked to by SIGTERM. The helpers are then found by a name or a path from the root.
    pub fn through(mut self, launcher: &str) -> Result<ShSpawner<R>, AllocError>
    where
        R: Drop,
        ensures { IfOk result (λ s. s ≡ with_launcher launcher.now self) }
    {
        self.launcher = Some(String::from_str(self.alloc, launcher)?);
        Ok(self)
    }

    /// The same spawner, beside a door that these wake: when a child ends, when a start may be tried again, and soon again behind a look
    /// that found none because the others have their turn.
    pub fn waking(mut self, wakes: Rc<Wakes>) -> ShSpawner<R>
        ensures { result ≡ with_wakes self }
    {
        self.wakes = Some(wakes);
        self
    }

    /// How many children live.
    pub fn live(&self) -> usize
        ensures { result ≡ length self.now.live }
    {
        self.children.items.len()
    }

    /// Whether what an ended child left is held.
    pub fn is_holding(&self) -> bool
        ensures { result ≡ is_some self.now.held }
    {
        self.held.is_some()
    }

    /// Whether a child of this ticket lives.
    pub fn lives(&self, ticket: Ticket) -> bool
        ensures { result ≡ lives ticket.number self.now.live }
    {
        self.children.has(ticket.number)
    }

    /// How often a call has failed.
    pub fn faults(&self) -> u64
        ensures { result ≡ self.now.faults }
    {
        self.faults
    }

    /// How many waits were in vain.
    pub fn waits(&self) -> u64
        ensures { result ≡ self.now.waits }
    {
        self.waits
    }

    /// How many children lived at the ends of children, summed up.
    pub fn company(&self) -> u64
        ensures { result ≡ self.now.company }
    {
        self.company
    }

    /// Why the last call that failed did so; there is a cause exactly where a fault was counted.
    pub fn failure(&self) -> Option<&TaskFault>
        ensures { is_some result ≡ nat_lt 0 self.now.faults }
    {
        self.failure.as_ref()
    }

    // Asks for the next look within a time.
    fn wake_within(&self, time: Duration) {
        if let Some(wakes) = &self.wakes {
            wakes.wake_within(time);
        }
    }

    // Asks for the next look where none of the children has ended.
    fn look_again(&self) {
        if let Some(wakes) = &self.wakes {
            wakes.look_again(self.children.has_ending());
        }
    }

    // Asks for a look when this child ends.
    fn watch(&self, process: &Child<SystemProcess>) {
        if let (Some(wakes), Some(output)) = (&self.wakes, &process.stdout) {
            wakes.watch(output.as_raw_fd());
        }
    }
}

impl<R: Clock + Eprint> ShSpawner<R> {
    ghost use Rattle.std.specs.Prelude.{◌≡◌, true, false, if◌then◌else◌};
    ghost use Rattle.mt_adapters.specs.Device.{one_more};

    // Counts a call that failed, keeps why, and says it.
    fn fail(&mut self, fault: TaskFault)
        ensures { self.new ≡ record self.old { faults = one_more self.old.faults } }
    {
        self.teller.tell(&self.rt, &fault);
        self.faults = counted(self.faults);
        self.failure = Some(fault);
        self.wake_within(Duration::from_secs(FAILED_PAUSE));
    }

    // Counts a start that failed, and begins a rest.
    fn fail_to_start(&mut self, fault: TaskFault)
        ensures { self.new ≡ record self.old { faults = one_more self.old.faults } }
    {
        self.rests.begin(&self.rt);
        self.fail(fault);
    }

    // Counts a start as failed without trying it, where one failed just before.
    fn fails_at_once(&mut self) -> bool
        ensures { self.new ≡ (if result then record self.old { faults = one_more self.old.faults } else self.old) }
    {
        let Some(fault) = self.failure.take() else {
            return false;
        };
        let left = self.rests.left(&self.rt);
        if left.is_some() {
            self.faults = counted(self.faults);
        }
        self.failure = Some(fault);
        if let Some(time) = left {
            self.wake_within(time);
        }
        left.is_some()
    }
}

// The path of the work folder: from the root, or from `./`.
fn folder_path(alloc: Global, work: &str) -> Result<String, AllocError>
    ensures { IfOk result (λ path. string_bytes path ≡ folder_path work.now) }
{
    let mut path = String::new(alloc);
    if !is_from_root(work) {
        path.push_str("./")?;
    }
    path.push_str(work)?;
    Ok(path)
}

// Whether a path begins with a slash.
#[tactic(auto, unfolding(crate::specs::State::is_from_root))]
fn is_from_root(path: &str) -> bool
    ensures { result ≡ is_from_root path.now }
{
    match path.as_bytes().split_first() {
        Some((first, _)) => *first == b'/',
        None => false,
    }
}

// A count of faults with one more.
fn counted(faults: u64) -> u64
    ensures { result ≡ min 18446744073709551615 (faults + 1) }
{
    faults.saturating_add(1)
}

// Whether it is want of memory.
fn is_memory(error: &io::Error) -> bool {
    error.kind() == ErrorKind::OutOfMemory
}

// Gives this user every right to what is in a folder. What is no folder stays as it is.
fn open_up<R: Files + Processes>(rt: &R, alloc: Global, folder: &str) -> io::Result<()> {
    if !is_folder(rt, folder)? {
        return Ok(());
    }
    quiet_command(alloc, "chmod", &["-R", "u+rwX", folder])?.status(rt)?;
    Ok(())
}

// Whether a right is wanting.
fn is_closed<T>(done: &io::Result<T>) -> bool {
    match done {
        Ok(_) => false,
        Err(error) => error.kind() == ErrorKind::PermissionDenied,
    }
}

// Passes over that something was not there.
fn or_missing(done: io::Result<()>) -> io::Result<()> {
    match done {
        Err(error) if error.kind() == ErrorKind::NotFound => Ok(()),
        done => done,
    }
}

// What is told of the ended task of a ticket's folder, if it was run. What its command made unreadable is made readable first.
fn left_of<R: Files<File = File> + Processes>(
    rt: &R,
    alloc: Global,
    folder: &str,
    is_launched: bool,
    status: ExitStatus,
) -> io::Result<Option<Left>> {
    let left = told_of(rt, alloc, folder, is_launched, status);
    if !is_closed(&left) {
        return left;
    }
    open_up(rt, alloc, folder)?;
    told_of(rt, alloc, folder, is_launched, status)
}

// Ends a child with its whole group.
fn stop<R: Processes + Clock>(
    rt: &R,
    alloc: Global,
    is_launched: bool,
    process: &mut Child<SystemProcess>,
) {
    if is_launched {
        end_launched(rt, alloc, process);
    } else {
        end(rt, alloc, process);
    }
}

// Ends what a child that was waited for has left in its group.
fn stop_rest<R: Processes + Clock>(rt: &R, alloc: Global, is_launched: bool, group: u32) {
    if is_launched {
        end_rest_launched(rt, alloc, group);
    } else {
        end_rest(rt, alloc, group);
    }
}

impl<R: Files<File = File> + Processes<Started = SystemProcess> + Clock> ShSpawner<R> {
    ghost use Rattle.std.specs.Prelude.{◌≡◌, ◌<◌, length, false, IfOk, IfErr, IfSome};
    ghost use Rattle.std.specs.Io.KnownBytes.{IsAtEnd};
    ghost use Rattle.mt_base.specs.Counts.{NeverFell, Rose};
    ghost use Rattle.mt_spawn.specs.Children.{lives};
    ghost use Rattle.mt_children.specs.State.{IsStarted};

    // Ends the child at a place.
    fn stop_at(&mut self, place: usize)
        requires { place < length self.old.live }
        ensures { self.new ≡ self.old }
    {
        let is_launched = self.launcher.is_some();
        let process = &mut self.children.items[place].process;
        stop(&self.rt, self.alloc, is_launched, process);
    }

    // Removes the folder of a number, with all that is in it, where it is there. What its command made unreadable is made readable
    // first.
    fn discard(&self, number: u64) -> io::Result<()> {
        let path = path_of(self.alloc, &self.work, number)?;
        let done = self.rt.remove_dir_all(self.alloc, path.as_str());
        if !is_closed(&done) {
            return or_missing(done);
        }
        open_up(&self.rt, self.alloc, path.as_str())?;
        or_missing(self.rt.remove_dir_all(self.alloc, path.as_str()))
    }

    // Fills a folder, and starts the command of an order there.
    fn launch<S: Source>(
        &self,
        alloc: Global,
        number: u64,
        order: &Order,
        bytes: &mut S,
    ) -> Result<Child<SystemProcess>, Unstarted>
        ensures ended { IfOk result (λ _. IsAtEnd (S.left bytes.new)) }
        ensures source { IfErr result (λ e. e ≡ Unstarted.Source → Rose (S.read_faults bytes.old) (S.read_faults bytes.new)) }
        ensures reads { NeverFell (S.read_faults bytes.old) (S.read_faults bytes.new) }
        ensures stays { S.source_stays bytes.old bytes.new }
    {
        let folder = match task_path_of(alloc, &self.work, number, self.launcher.is_some()) {
            Ok(folder) => folder,
            Err(error) => return Err(Unstarted::System(io::Error::from(error))),
        };
        fill(&self.rt, alloc, folder.as_str(), order, bytes)?;
        match self.spawn(alloc, number, order) {
            Ok(process) => Ok(process),
            Err(error) => Err(Unstarted::System(error)),
        }
    }

    // Starts the command of an order in the folder of a number.
    fn spawn(&self, alloc: Global, number: u64, order: &Order) -> io::Result<Child<SystemProcess>> {
        if order.job >= NUMBERS_END {
            return Err(io::Error::from(ErrorKind::InvalidInput));
        }
        let mut command = self.start_of(alloc, number, order)?;
        let process = command.spawn(&self.rt)?;
        self.watch(&process);
        Ok(process)
    }

    // What starts the command of an order: its shell, or a launcher, for which a file is written.
    fn start_of(&self, alloc: Global, number: u64, order: &Order) -> io::Result<Command>
        requires { order.now.job < 2 ^ 62 }
    {
        let folder = path_of(alloc, &self.work, number)?;
        let Some(launcher) = &self.launcher else {
            return Ok(command_of(alloc, folder.as_str(), &self.helper, &self.login, order)?);
        };
        let run = run_of(alloc, &self.helper, &self.login, order)?;
        write_run(&self.rt, alloc, folder.as_str(), run.as_str())?;
        Ok(launch_of(alloc, folder.as_str(), launcher)?)
    }

    // Makes the folder of the next task, under whose number no child lives.
    fn next_folder(&mut self, alloc: Global) -> Result<u64, Unready>
        ensures same { self.new ≡ self.old }
        ensures fresh { IfOk result (λ n. lives n self.new.live ≡ false) }
        ensures small { IfOk result (λ n. n < 18446744073709551615) }
    {
        if !self.is_ready {
            prepare(&self.rt, alloc, &self.work, &self.helper)?;
            self.is_ready = true;
        }
        let made = make_folder(&self.rt, alloc, &self.work, self.children.next);
        match made {
            Ok(number) => {
                self.children.pass(number);
                Ok(number)
            }
            Err(error) => {
                self.is_ready = false;
                Err(Unready::System(error))
            }
        }
    }

    // Starts an order, and gives the ticket of its child.
    fn begin<S: Source>(
        &mut self,
        alloc: Global,
        order: &Order,
        bytes: &mut S,
    ) -> Result<u64, Unstarted>
        ensures ok { IfOk result (λ t. IsStarted t self.old self.new × IsAtEnd (S.left bytes.new)) }
        ensures err { IfErr result (λ _. self.new ≡ self.old) }
        ensures source { IfErr result (λ e. e ≡ Unstarted.Source → Rose (S.read_faults bytes.old) (S.read_faults bytes.new)) }
        ensures reads { NeverFell (S.read_faults bytes.old) (S.read_faults bytes.new) }
        ensures stays { S.source_stays bytes.old bytes.new }
    {
        let number = match self.next_folder(alloc) {
            Ok(number) => number,
            Err(Unready::Missing(tool)) => return Err(Unstarted::Missing(tool)),
            Err(Unready::System(error)) => return Err(Unstarted::System(error)),
        };
        match self.launch(alloc, number, order, bytes) {
            Ok(process) => match self.children.add(number, process) {
                Ok(()) => Ok(number),
                Err(mut process) => {
                    stop(&self.rt, self.alloc, self.launcher.is_some(), &mut process);
                    let _ = self.discard(number);
                    Err(Unstarted::System(io::Error::from(ErrorKind::OutOfMemory)))
                }
            },
            Err(error) => {
                let _ = self.discard(number);
                Err(error)
            }
        }
    }

    // Looks once for a child that has ended. Beside a door it finds none once it has for so long.
    fn look_for_one(&mut self) -> Option<Found>
        ensures same { self.new ≡ self.old }
        ensures there { IfSome result (λ f. f.place < length self.old.live) }
    {
        if self.wakes.is_some() && self.slice.is_over(&self.rt) {
            self.wake_within(Duration::ZERO);
            return None;
        }
        let found = self.children.first_ended();
        if found.is_none() {
            self.look_again();
        }
        found
    }

    // Waits for a child that has ended, or for as long as was asked for.
    fn await_one(&mut self) -> Option<Found>
        ensures same { self.new ≡ self.old }
        ensures there { IfSome result (λ f. f.place < length self.old.live) }
    {
        let mut waited = Duration::ZERO;
        let mut pause = Duration::from_micros(FIRST_PAUSE);
        'looks: for _ in 0..u64::MAX {
            if let Some(found) = self.children.first_ended() {
                return Some(found);
            }
            if self.patience.is_some_and(|most| waited >= most) {
                return None;
            }
            thread::sleep(&self.rt, pause);
            waited = waited.saturating_add(pause);
            pause = pause
                .saturating_add(pause)
                .min(Duration::from_micros(LAST_PAUSE));
        }
        None
    }

    // What an ended child left, if it is one that was run. What is left of its group is ended first, so that nothing writes into its folder any
    // more. Its files are not looked at before: where another machine makes them, it would be remembered for a while that they are missing.
    fn look(&mut self, alloc: Global, found: Found) -> io::Result<Option<Left>>
        requires { found.place < length self.old.live }
        ensures { self.new ≡ self.old }
    {
        let number = self.children.items[found.place].ticket;
        match found.status {
            Ok(status) => {
                let is_launched = self.launcher.is_some();
                let group = self.children.items[found.place].process.id();
                stop_rest(&self.rt, alloc, is_launched, group);
                let folder = path_of(alloc, &self.work, number)?;
                left_of(&self.rt, alloc, folder.as_str(), is_launched, status)
            }
            Err(error) => {
                self.stop_at(found.place);
                Err(error)
            }
        }
    }
}

impl<R: Files<File = File> + Processes<Started = SystemProcess> + Clock + Eprint> ShSpawner<R> {
    ghost use Rattle.std.specs.Prelude.{◌≡◌, ◌<◌, IfOk, IfSome, None, length, ⊤};
    ghost use Rattle.std.specs.Io.{ReadsAtMost};
    ghost use Rattle.mt_spawn.specs.Children.{Waits};
    ghost use Rattle.mt_children.specs.State.{ended, faults_after_wait, lost, seen_of};

    // A child is gone, and what it left is held.
    fn hold(&mut self, number: u64, left: Left)
        ensures { self.new ≡ ended self.old number left }
    {
        let live = self.children.items.len() as u64;
        self.company = self.company.saturating_add(live);
        self.children.remove(number);
        self.held = Some(Held::new(number, left));
    }

    // A child is gone, and its folder is removed.
    fn lose(&mut self, number: u64)
        ensures { self.new ≡ lost self.old number }
    {
        self.children.remove(number);
        let _ = self.discard(number);
    }

    // Takes the outcome of a child that was found.
    fn take(&mut self, alloc: Global, found: Found) -> Waited
        requires there { found.place < length self.old.live }
        requires free { self.old.held ≡ None }
        ensures wait { Waits (λ fate raw. ⊤) (seen_of self.old) result self.new.held None (seen_of self.new) }
        ensures counted { self.new.faults ≡ faults_after_wait self.old.faults result }
        ensures settings { self.new.settings ≡ self.old.settings }
    {
        let number = self.children.items[found.place].ticket;
        let ticket = Ticket { number };
        match self.look_twice(alloc, found) {
            Ok(Some((left, kept))) => {
                self.hold(number, kept);
                Waited::Ended { ticket, left }
            }
            Ok(None) => {
                self.lose(number);
                self.fail(TaskFault::NotRun);
                Waited::Failed(ticket)
            }
            Err(error) => {
                self.lose(number);
                if is_memory(&error) {
                    return Waited::Lost(ticket);
                }
                self.fail(TaskFault::Outcome(error));
                Waited::Failed(ticket)
            }
        }
    }

    // What an ended child left, and a copy of it, if it was run.
    fn look_twice(&mut self, alloc: Global, found: Found) -> io::Result<Option<(Left, Left)>>
        requires { found.place < length self.old.live }
        ensures same { self.new ≡ self.old }
        ensures copy { IfOk result (λ seen. IfSome seen (λ both. both.1 ≡ both.0)) }
    {
        let Some(left) = self.look(alloc, found)? else {
            return Ok(None);
        };
        let copy = left.copy(alloc)?;
        Ok(Some((left, copy)))
    }

    // Reads from a part of what is held.
    fn read_held(&mut self, part: Part, at: u64, into: &mut [u8]) -> io::Result<usize>
        ensures same { self.new ≡ self.old }
        ensures bound { ReadsAtMost result into.new }
    {
        let Some(held) = &mut self.held else {
            return Err(io::Error::from(ErrorKind::NotFound));
        };
        let is_launched = self.launcher.is_some();
        let folder = task_path_of(self.alloc, &self.work, held.number, is_launched)?;
        let done = held.read(&self.rt, self.alloc, folder.as_str(), part, at, into);
        if !is_closed(&done) {
            return done;
        }
        open_up(&self.rt, self.alloc, folder.as_str())?;
        held.read(&self.rt, self.alloc, folder.as_str(), part, at, into)
    }
}

impl<R: Files<File = File> + Processes<Started = SystemProcess> + Clock + Eprint> Spawner
    for ShSpawner<R> {
    ghost use Rattle.std.specs.Prelude.{◌≡◌, ◌<◌, None, length, true, ⊤};
    ghost use Rattle.std.proofs.lemmas.Option.{none-some};
    ghost use Rattle.mt_adapters.specs.Device.{faults_after_read};
    ghost use Rattle.mt_base.specs.Counts.{NeverFell, Rose};
    ghost use Rattle.mt_spawn.specs.Children.{Begins, Loses, SameLive, Waits, lives};
    ghost use Rattle.mt_spawn.specs.Parts.{ReadsPart, size_in};
    ghost use Rattle.mt_children.specs.State.{after_start, faults_after_wait, lost, seen_of};

    ghost Rule = { Unit {0} };

    ghost Fate = { Unit {0} };

    ghost rule = { λ s. tt };

    ghost seen = { λ s. seen_of s };

    ghost held = { λ s. s.held };

    ghost told = { λ s. None };

    ghost gives = { λ rule run input raw. ⊤ };

    ghost may = { λ rule fate raw. ⊤ };

    fn start<S: Source>(&mut self, alloc: Global, order: &Order, bytes: &mut S) -> Begun
        requires free { self.old.held ≡ None }
        ensures start { Begins (λ fate raw. ⊤) (λ all raw. ⊤) (S.left bytes.old) (S.left bytes.new) (seen_of self.old) result (seen_of self.new) }
        ensures after { self.new ≡ after_start self.old result }
        ensures input { result ≡ Begun.InputFailed → Rose (S.read_faults bytes.old) (S.read_faults bytes.new) }
        ensures reads { NeverFell (S.read_faults bytes.old) (S.read_faults bytes.new) }
        ensures stays { S.source_stays bytes.old bytes.new }
    {
        if self.fails_at_once() {
            return Begun::Failed;
        }
        match self.begin(alloc, order, bytes) {
            Ok(number) => {
                self.rests.end();
                Begun::Began(Ticket { number })
            }
            Err(Unstarted::Source) => Begun::InputFailed,
            Err(Unstarted::Missing(tool)) => {
                self.fail_to_start(TaskFault::Missing(tool));
                Begun::Failed
            }
            Err(Unstarted::System(error)) => {
                if is_memory(&error) {
                    return Begun::Memory;
                }
                self.fail_to_start(TaskFault::Start(error));
                Begun::Failed
            }
        }
    }

    fn wait(&mut self, alloc: Global, patient: bool) -> Waited
        requires some { 0 < length self.old.live }
        requires free { self.old.held ≡ None }
        ensures wait { Waits (λ fate raw. ⊤) (seen_of self.old) result self.new.held None (seen_of self.new) }
        ensures counted { self.new.faults ≡ faults_after_wait self.old.faults result }
        ensures settings { self.new.settings ≡ self.old.settings }
    {
        let found = if patient {
            self.await_one()
        } else {
            self.look_for_one()
        };
        match found {
            Some(found) => self.take(alloc, found),
            None => {
                self.slice.end();
                self.children.wait_all();
                self.waits = self.waits.saturating_add(1);
                Waited::NotYet
            }
        }
    }

    fn read(&mut self, part: Part, at: u64, into: &mut [u8]) -> ReadStep
        requires piece { 0 < length into.old }
        ensures read { ReadsPart None (size_in self.old.held part) at self.old.faults into.new result self.new.faults }
        ensures after { self.new ≡ record self.old { faults = faults_after_read self.old.faults result } }
    {
        let size = match &self.held {
            Some(held) => held.size_of(part),
            None => 0,
        };
        if size <= at {
            return ReadStep::End;
        }
        let most = (size - at).min(into.len() as u64) as usize;
        match self.read_held(part, at, &mut into[..most]) {
            Ok(0) => {
                self.fail(TaskFault::Read(io::Error::from(ErrorKind::UnexpectedEof)));
                ReadStep::Failed
            }
            Ok(count) => ReadStep::Took(count),
            Err(error) => {
                self.fail(TaskFault::Read(error));
                ReadStep::Failed
            }
        }
    }

    fn release(&mut self)
        ensures same { SameLive (seen_of self.old) (seen_of self.new) }
        ensures faults { NeverFell self.old.faults self.new.faults }
        ensures free { self.new.held ≡ None }
        ensures settings { self.new.settings ≡ self.old.settings }
    {
        let Some(held) = self.held.take() else {
            return;
        };
        if let Err(error) = self.discard(held.number) {
            self.fail(TaskFault::Remove(error));
        }
    }

    fn kill(&mut self, ticket: Ticket)
        requires { lives ticket.number self.old.live ≡ true }
        ensures { self.new ≡ lost self.old ticket.number }
    {
        if let Some(place) = self.children.place_of(ticket.number) {
            self.stop_at(place);
        }
        self.lose(ticket.number);
    }

    ghost told_is_held = { λ s raw is. absurd (none-some raw is) };
}
