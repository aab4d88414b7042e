//! The files of helpers, in a folder.
ghost use Rattle.std.specs.Prelude.{◌≡◌};

use mt_spawn::{Spool, SpoolFault, SpoolStep};
use std::alloc::{AllocError, Global};
use std::fs::{File, OpenOptions};
use std::io;
use std::io::{ErrorKind, Write};
use std::marker::Model;
use std::rt::Files;

// A file that is open for writing at its end.
#[derive(Drop)]
struct OpenFile {
    number: u32,
    file: File,
}

/// The files of a folder that is there, each named by its number in decimal. One of them is open at most, the last that was made or
/// written to. It tells none of them.
#[derive(Drop)]
pub struct FolderSpool<R> {
    rt: R,
    alloc: Global,
    folder: String,
    open: Option<OpenFile>,
    faults: u64,
    failure: Option<io::Error>,
}

impl<R> Model for FolderSpool<R> {
    ghost use Rattle.std.specs.Prelude.{◌≡◌, nat_lt, ℕ, is_some};

    ghost Value = { ℕ };

    ghost view = { λ s. s.faults };

    ghost invariant = { λ s. is_some s.failure ≡ nat_lt 0 s.faults };
}

impl<R> FolderSpool<R> {
    ghost use Rattle.std.specs.Prelude.{◌≡◌, nat_lt, IfOk, is_some};
    ghost use Rattle.mt_adapters.specs.Device.{one_more};

    /// The files of a folder, of which no call has failed yet. It makes no call of the system.
    pub fn new(alloc: Global, rt: R, folder: &str) -> Result<FolderSpool<R>, AllocError>
    where
        R: Drop,
        ensures { IfOk result (λ s. s ≡ 0) }
    {
        Ok(FolderSpool {
            rt,
            alloc,
            folder: String::from_str(alloc, folder)?,
            open: None,
            faults: 0,
            failure: None,
        })
    }

    /// How often a call has failed.
    pub fn faults(&self) -> u64
        ensures { result ≡ self.now }
    {
        self.faults
    }

    /// The first call that failed, and why; there is one exactly where a fault was counted.
    pub fn failure(&self) -> Option<&io::Error>
        ensures { is_some result ≡ nat_lt 0 self.now }
    {
        self.failure.as_ref()
    }

    // Counts a call that failed, and keeps the first.
    fn fail(&mut self, error: io::Error)
        ensures { self.new ≡ one_more self.old }
    {
        self.faults = self.faults.saturating_add(1);
        if self.failure.is_none() {
            self.failure = Some(error);
        }
    }
}

impl<R: Files<File = File>> FolderSpool<R> {
    ghost use Rattle.std.specs.Prelude.{◌≡◌};

    // Opens the file of a number.
    fn open(&self, number: u32, options: &OpenOptions) -> io::Result<File> {
        let path = format!(in self.alloc; "{}/{number}", self.folder)?;
        options.open(&self.rt, path.as_str())
    }

    // Opens the file of a number, where it is not the one that is open, and writes all of a piece at its end.
    fn write(&mut self, number: u32, piece: &[u8]) -> io::Result<()>
        ensures { self.new ≡ self.old }
    {
        let mut open = match self.open.take() {
            Some(open) if open.number == number => open,
            _ => OpenFile {
                number,
                file: self.open(number, OpenOptions::new().append(true))?,
            },
        };
        let done = open.file.write_all(piece);
        self.open = Some(open);
        done
    }
}

impl<R: Files<File = File>> Spool for FolderSpool<R> {
    ghost use Rattle.std.specs.Prelude.{◌≡◌, None};
    ghost use Rattle.mt_adapters.specs.Device.{faults_after};
    ghost use Rattle.mt_children.specs.Counted.{faults_after_making};

    ghost files = { λ s. None };

    ghost faults = { λ s. s };

    fn create_new(&mut self, number: u32) -> SpoolStep
        ensures counted { self.new ≡ faults_after_making self.old result }
    {
        match self.open(number, OpenOptions::new().write(true).create_new(true)) {
            Ok(file) => {
                self.open = Some(OpenFile { number, file });
                SpoolStep::Done
            }
            Err(error) if error.kind() == ErrorKind::AlreadyExists => SpoolStep::Taken,
            Err(error) => {
                self.fail(error);
                SpoolStep::Failed
            }
        }
    }

    fn append(&mut self, number: u32, piece: &[u8]) -> Result<(), SpoolFault>
        ensures counted { self.new ≡ faults_after self.old result }
    {
        match self.write(number, piece) {
            Ok(()) => Ok(()),
            Err(error) => {
                self.fail(error);
                Err(SpoolFault)
            }
        }
    }
}
