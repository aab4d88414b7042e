//! An ended child that is held.
ghost use Rattle.std.specs.Prelude.{◌≡◌, ◌<◌, ◌≤◌, length, IfSome, None, Some};
ghost use Rattle.std.specs.Io.{ReadsAtMost};
ghost use Rattle.mt_spawn.specs.Parts.{size_among};

use crate::outcome::open_part;
use mt_spawn::{Left, Part, Sizes};
use std::alloc::Global;
use std::fs::File;
use std::io;
use std::io::ErrorKind;
use std::marker::Model;
use std::os::unix::fs::FileExt;
use std::rt::Files;

/// How often a read that a signal cut short is tried.
const TRIES: u32 = 64;

// A part whose file is open.
#[derive(Drop)]
struct OpenPart {
    part: Part,
    file: File,
}

/// An ended child, and the file of it that was read last, seen as what is told of it.
#[derive(Drop)]
pub(crate) struct Held {
    /// The number of its folder.
    pub(crate) number: u64,
    left: Left,
    open: Option<OpenPart>,
}

impl Model for Held {
    ghost use Rattle.mt_spawn.specs.declared.task.Left.{Left as Told};

    ghost Value = { Told };

    ghost view = { λ h. h.left };
}

// How many bytes a part has.
fn size_of(left: &Left, part: Part) -> u64
    ensures { result ≡ size_among left.now.made part }
{
    match (&left.made, part) {
        (Sizes::Whole { out, .. }, Part::Out) => *out,
        (Sizes::Whole { files, .. }, Part::File { index }) => {
            match files.as_slice().get(index as usize) {
                Some(file) => file.len,
                None => 0,
            }
        }
        (Sizes::TooLarge { .. }, _) => 0,
    }
}

// Reads from a place of a file on, again where a signal cut the call short. A file that ends there has shrunk.
fn read_at(file: &File, at: u64, into: &mut [u8]) -> io::Result<usize>
    ensures { ReadsAtMost result into.new }
{
    for _ in 0..TRIES {
        match file.read_at(into, at) {
            Err(error) if error.kind() == ErrorKind::Interrupted => {}
            done => return done,
        }
    }
    Err(io::Error::from(ErrorKind::Interrupted))
}

impl Held {
    ghost use Rattle.std.specs.Prelude.{◌≡◌};

    /// What an ended child in the folder of a number left.
    pub(crate) fn new(number: u64, left: Left) -> Held
        ensures { result ≡ left }
    {
        Held {
            number,
            left,
            open: None,
        }
    }

    /// How many bytes a part has.
    pub(crate) fn size_of(&self, part: Part) -> u64
        ensures { result ≡ size_among self.now.made part }
    {
        size_of(&self.left, part)
    }

    /// Reads from a part, whose file stays open until another one is read.
    pub(crate) fn read<R: Files<File = File>>(
        &mut self,
        rt: &R,
        alloc: Global,
        folder: &str,
        part: Part,
        at: u64,
        into: &mut [u8],
    ) -> io::Result<usize>
        ensures same { self.new ≡ self.old }
        ensures bound { ReadsAtMost result into.new }
    {
        let open = match self.open.take() {
            Some(open) if open.part == part => open,
            _ => OpenPart {
                part,
                file: open_part(rt, alloc, folder, &self.left, part)?,
            },
        };
        let done = read_at(&open.file, at, into);
        self.open = Some(open);
        done
    }
}
