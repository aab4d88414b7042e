//! The three files of a store, in a folder.
ghost use Rattle.std.specs.Prelude.{◌≡◌};
ghost use Rattle.mt_adapters.specs.Device.{faults_after};

use crate::failure::{Failure, FileCall};
use crate::folder::Folder;
use mt_disk::{Disk, DiskFault, FileNo};
use std::alloc::{AllocError, Global};
use std::fs::File;
use std::io;
use std::io::Eprint;
use std::marker::Model;
use std::rt::Files;

/// The files `head`, `log1` and `log2` of a folder. Its first call makes what is missing, the folder too, locks the folder for as
/// long as the disk lives, and syncs all three; it is a counted fault where another program has the folder, where one of the
/// names is no file, and where `head` is lost beside a log, and then nothing was touched. A call that doesn't fit a file's length
/// is a counted fault, and so is each call after a sync that failed.
#[derive(Drop)]
pub struct FileDisk<R> {
    folder: Folder<R>,
    faults: u64,
    failure: Option<Failure>,
}

impl<R> Model for FileDisk<R> {
    ghost use Rattle.std.specs.Prelude.{◌<◌, ℕ, IsSome};

    ghost Value = { ℕ };

    ghost view = { λ d. d.faults };

    ghost invariant = { λ d. IsSome d.failure → 0 < d.faults };
}

// A call of the system on a file.
fn on_file<T>(call: FileCall, file: FileNo, done: io::Result<T>) -> Result<T, Failure> {
    match done {
        Ok(value) => Ok(value),
        Err(error) => Err(Failure::of_file(call, file, error)),
    }
}

impl<R> FileDisk<R> {
    ghost use Rattle.std.specs.Prelude.{◌≡◌, ◌<◌, IfOk, IsSome};

    /// The disk of a folder, which has not failed yet. It makes no call of the system.
    pub fn new(alloc: Global, rt: R, folder: &str) -> Result<FileDisk<R>, AllocError>
    where
        R: Drop,
        ensures { IfOk result (λ d. d ≡ 0) }
    {
        let folder = Folder::new(alloc, rt, folder)?;
        Ok(FileDisk {
            folder,
            faults: 0,
            failure: None,
        })
    }

    /// The same disk, which says on standard error how far its first reader has come, once each 5 s, and, where that is asked for, what it
    /// opens.
    pub fn telling(mut self, opening: bool) -> FileDisk<R>
        ensures { result ≡ self }
    {
        self.folder = self.folder.telling(opening);
        self
    }

    /// How often a call has failed.
    pub fn faults(&self) -> u64
        ensures { result ≡ self.now }
    {
        self.faults
    }

    /// The first call that failed, and why.
    pub fn failure(&self) -> Option<&Failure>
        ensures { IsSome result → 0 < self.now }
    {
        self.failure.as_ref()
    }

    // Counts a call that failed, and keeps the first.
    fn counted<T>(&mut self, done: Result<T, Failure>) -> Result<T, DiskFault>
        ensures { self.new ≡ faults_after self.old result }
    {
        match done {
            Ok(value) => Ok(value),
            Err(failure) => {
                self.faults = self.faults.saturating_add(1);
                if self.failure.is_none() {
                    self.failure = Some(failure);
                }
                Err(DiskFault)
            }
        }
    }
}

impl<R: Files<File = File> + Eprint> Disk for FileDisk<R> {
    ghost use Rattle.std.specs.Prelude.{◌≡◌, None, ⊤};
    ghost use Rattle.std.proofs.lemmas.Option.{none-some};
    ghost use Rattle.mt_adapters.specs.Device.{faults_after};

    ghost seen = { λ d. None };

    ghost may_leave = { λ d c. ⊥ };

    ghost moment = { λ d. 0 };

    ghost left_since = { λ d t c. ⊥ };

    ghost faults = { λ d. d };

    ghost stays = { λ a b. ⊤ };

    fn len(&mut self, file: FileNo) -> Result<u64, DiskFault>
        ensures counted { self.new ≡ faults_after self.old result }
    {
        let done = match self.folder.get(file) {
            Ok(open) => on_file(FileCall::Length, file, open.ask_len()),
            Err(failure) => Err(failure),
        };
        self.counted(done)
    }

    fn read(&mut self, file: FileNo, at: u64, into: &mut [u8]) -> Result<(), DiskFault>
        ensures counted { self.new ≡ faults_after self.old result }
    {
        let done = match self.folder.get(file) {
            Ok(open) => on_file(FileCall::Read, file, open.read(at, into)),
            Err(failure) => Err(failure),
        };
        self.folder
            .tell_read(file, at.saturating_add(into.len() as u64));
        self.counted(done)
    }

    fn write_at(&mut self, file: FileNo, at: u64, piece: &[u8]) -> Result<(), DiskFault>
        ensures counted { self.new ≡ faults_after self.old result }
    {
        let done = match self.folder.get(file) {
            Ok(open) => on_file(FileCall::Write, file, open.write(at, piece)),
            Err(failure) => Err(failure),
        };
        self.folder.tell_no_more();
        self.counted(done)
    }

    fn cut(&mut self, file: FileNo, to: u64) -> Result<(), DiskFault>
        ensures counted { self.new ≡ faults_after self.old result }
    {
        let done = match self.folder.get(file) {
            Ok(open) => on_file(FileCall::Cut, file, open.cut(to)),
            Err(failure) => Err(failure),
        };
        self.counted(done)
    }

    fn sync(&mut self, file: FileNo) -> Result<(), DiskFault>
        ensures counted { self.new ≡ faults_after self.old result }
    {
        let done = self.folder.sync(file);
        self.counted(done)
    }

    ghost counts_now = { λ d t c le left. left };

    ghost only_now = { λ d c left. left };

    ghost seen_is_left = { λ d files is. none-some files is };

    ghost same = { λ d. tt };

    ghost joined = { λ a b c h k. tt };
}
