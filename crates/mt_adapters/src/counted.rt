//! Readers and writers as sources and sinks, whose faults are counted.
ghost use Rattle.std.specs.Prelude.{◌≡◌, ◌≢◌, ℕ, ◌+◌, ◌<◌, ◌≤◌, length, take, get_or, None};
ghost use Rattle.std.specs.Io.{ReadsAtMost, WritesAtMost};
ghost use Rattle.std.specs.Io.KnownBytes.{ReadConsumes, WriteAppends};

use crate::patient::Patient;
use memchr::memchr;
use mt_edge::{ReadStep, Sink, Source, WriteStep};
use std::alloc::{AllocError, Global};
use std::io;
use std::io::{BufRead, BufReader, ErrorKind, Read, Write};
use std::marker::Model;
use std::rt::{Stdin, Stdout};

/// How many bytes are read ahead. The layers above ask for a message's head line by line.
const BUFFER: usize = 65_536;

/// How often a call that a signal cut short is tried.
const TRIES: u32 = 64;

/// A device, and how often a call of it has failed. As a source and as a sink it doesn't tell its contents.
#[derive(Drop)]
pub struct Counted<D> {
    device: D,
    faults: u64,
}

/// Standard input, read 64 KiB ahead.
pub type StdSource = Counted<BufReader<Patient<Stdin>>>;

/// Standard output. A write of it is one write of the system.
pub type StdSink = Counted<Patient<Stdout>>;

impl<D> Model for Counted<D> {
    ghost use Rattle.mt_adapters.specs.Device.{CountedState};

    ghost Value = { CountedState D };

    ghost view = { λ c. record { device = c.device; faults = c.faults } };
}

impl<D> Counted<D> {
    /// A device that has not failed yet. It makes no call of it.
    pub fn of(device: D) -> Counted<D>
        ensures { result ≡ record { device = device; faults = 0 } }
    {
        Counted { device, faults: 0 }
    }

    /// How often a call has failed.
    pub fn faults(&self) -> u64
        ensures { result ≡ self.now.faults }
    {
        self.faults
    }

    // The device.
    pub(crate) fn device(&self) -> &D
        ensures { result.now ≡ self.now.device }
    {
        &self.device
    }
}

impl<R: Read> Counted<BufReader<R>> {
    // Drops what is read ahead, or else what one read of 64 KiB gives, and tells how much.
    pub(crate) fn skip(&mut self) -> io::Result<usize> {
        let count = self.device.fill_buf()?.len();
        self.device.consume(count);
        Ok(count)
    }
}

impl<R: Read + Drop> Counted<BufReader<R>> {
    ghost use Rattle.std.specs.Prelude.{◌≡◌, [], IfOk};
    ghost use Rattle.std.specs.Io.Buffered.{reader_inner, reader_buffer, reader_capacity};

    /// A reader with a buffer of 64 KiB before it, which has not failed yet. It makes no call of it.
    pub fn reading(alloc: Global, reader: R) -> Result<Counted<BufReader<R>>, AllocError>
        ensures reader { IfOk result (λ c. reader_inner c.device ≡ reader) }
        ensures buffer { IfOk result (λ c. (reader_buffer c.device ≡ []) × (reader_capacity c.device ≡ BUFFER)) }
        ensures faults { IfOk result (λ c. c.faults ≡ 0) }
    {
        match BufReader::with_capacity(alloc, BUFFER, reader) {
            Ok(device) => Ok(Counted::of(device)),
            Err(_) => Err(AllocError),
        }
    }
}

impl Counted<BufReader<Patient<Stdin>>> {
    ghost use Rattle.std.specs.Prelude.{◌≡◌, [], IfOk};
    ghost use Rattle.std.specs.Io.Buffered.{reader_buffer};

    /// Standard input, of which no read has failed yet. It makes no call of the system.
    pub fn new(alloc: Global, stdin: Stdin) -> Result<StdSource, AllocError>
        ensures buffer { IfOk result (λ c. reader_buffer c.device ≡ []) }
        ensures faults { IfOk result (λ c. c.faults ≡ 0) }
    {
        Counted::reading(alloc, Patient::over(stdin))
    }
}

impl Counted<Patient<Stdout>> {
    ghost use Rattle.std.specs.Prelude.{◌≡◌};

    /// Standard output, of which no write has failed yet. It makes no call of the system.
    pub fn over(stdout: Stdout) -> StdSink
        ensures { result.faults ≡ 0 }
    {
        Counted::of(Patient::over(stdout))
    }
}

// Reads, again where a signal cut the call short.
fn read_retrying<R: Read>(reader: &mut R, into: &mut [u8]) -> io::Result<usize>
    ensures bound { ReadsAtMost result into.new }
    ensures bytes { ReadConsumes (R.remaining reader.old) (R.remaining reader.new) result into.new }
{
    for _ in 0..TRIES {
        match reader.read(into) {
            Err(e) if e.kind() == ErrorKind::Interrupted => {}
            done => return done,
        }
    }
    Err(io::Error::from(ErrorKind::Interrupted))
}

// Writes, again where a signal cut the call short.
pub(crate) fn write_retrying<W: Write>(writer: &mut W, piece: &[u8]) -> io::Result<usize>
    ensures bound { WritesAtMost result piece.now }
    ensures bytes { WriteAppends (W.contents writer.old) (W.contents writer.new) result piece.now }
{
    for _ in 0..TRIES {
        match writer.write(piece) {
            Err(e) if e.kind() == ErrorKind::Interrupted => {}
            done => return done,
        }
    }
    Err(io::Error::from(ErrorKind::Interrupted))
}

// How long the first line is, with its LF: all of the bytes where none of them is an LF.
fn line_len(bytes: &[u8]) -> usize
    ensures bound { result ≤ length bytes.now }
    ensures line { (k : ℕ) → k + 1 < result → get_or bytes.now k 0 ≢ 10 }
{
    match memchr(b'\n', bytes) {
        Some(place) => place + 1,
        None => bytes.len(),
    }
}

// Copies as much of the first line as there is and fits.
pub(crate) fn copy_line(bytes: &[u8], into: &mut [u8]) -> usize
    ensures fits { result ≤ length into.new }
    ensures bound { result ≤ length bytes.now }
    ensures copied { take result into.new ≡ take result bytes.now }
    ensures line { (k : ℕ) → k + 1 < result → get_or into.new k 0 ≢ 10 }
{
    let most = bytes.len().min(into.len());
    let count = line_len(&bytes[..most]);
    into[..count].copy_from_slice(&bytes[..count]);
    count
}

impl<R: Read> Source for Counted<BufReader<R>> {
    ghost use Rattle.std.specs.Prelude.{◌≡◌, ◌<◌, None, length, ⊤};
    ghost use Rattle.std.specs.Io.Buffered.{reader_remaining};
    ghost use Rattle.mt_edge.specs.Stream.{IsWithinLine, Reads};
    ghost use Rattle.mt_adapters.specs.Device.{HandsOn, faults_after_read};

    ghost left = { λ c. None };

    ghost read_faults = { λ c. c.faults };

    ghost source_stays = { λ a b. ⊤ };

    fn read(&mut self, into: &mut [u8]) -> ReadStep
        requires { 0 < length into.old }
        ensures reads { Reads None self.old.faults into.new result None self.new.faults }
        ensures bytes { HandsOn (reader_remaining R.remaining self.old.device) into.new result
            (reader_remaining R.remaining self.new.device) }
        ensures counted { self.new.faults ≡ faults_after_read self.old.faults result }
    {
        // The layers above read the lines between chunks in single bytes, so that this way counts.
        if into.len() == 1 {
            if let [first, ..] = self.device.buffer() {
                into[0] = *first;
                self.device.consume(1);
                return ReadStep::Took(1);
            }
        }
        match read_retrying(&mut self.device, into) {
            Ok(0) => ReadStep::End,
            Ok(count) => ReadStep::Took(count),
            Err(_) => {
                self.faults = self.faults.saturating_add(1);
                ReadStep::Failed
            }
        }
    }

    fn read_line(&mut self, into: &mut [u8]) -> ReadStep
        requires { 0 < length into.old }
        ensures reads { Reads None self.old.faults into.new result None self.new.faults }
        ensures line { IsWithinLine result into.new }
        ensures bytes { HandsOn (reader_remaining R.remaining self.old.device) into.new result
            (reader_remaining R.remaining self.new.device) }
        ensures counted { self.new.faults ≡ faults_after_read self.old.faults result }
    {
        let count = copy_line(self.device.buffer(), into);
        if count == 0 {
            // Nothing is read ahead, and this byte's read fills the buffer.
            return self.read(&mut into[..1]);
        }
        self.device.consume(count);
        ReadStep::Took(count)
    }

    ghost source_same = { λ a. tt };

    ghost source_joined = { λ a b c h k. tt };
}

impl<W: Write> Sink for Counted<W> {
    ghost use Rattle.std.specs.Prelude.{◌≡◌, ◌<◌, None, length, ⊤};
    ghost use Rattle.mt_edge.specs.Stream.{Writes};
    ghost use Rattle.mt_adapters.specs.Device.{HandsOut, faults_after_write};

    ghost got = { λ c. None };

    ghost write_faults = { λ c. c.faults };

    ghost sink_stays = { λ a b. ⊤ };

    fn write(&mut self, piece: &[u8]) -> WriteStep
        requires { 0 < length piece.now }
        ensures writes { Writes None self.old.faults piece.now result None self.new.faults }
        ensures bytes { HandsOut (W.contents self.old.device) piece.now result (W.contents self.new.device) }
        ensures counted { self.new.faults ≡ faults_after_write self.old.faults result }
    {
        match write_retrying(&mut self.device, piece) {
            Ok(count) if count > 0 => WriteStep::Took(count),
            _ => {
                self.faults = self.faults.saturating_add(1);
                WriteStep::Failed
            }
        }
    }

    ghost sink_same = { λ a. tt };

    ghost sink_joined = { λ a b c h k. tt };
}
