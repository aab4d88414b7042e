//! A connection to a store, which is made at its first call.
ghost use Rattle.std.specs.Prelude.{◌≡◌};

use mt_adapters::Counted;
use mt_edge::{Both, ReadStep, Sink, Source, WriteStep};
use std::alloc::{AllocError, Global};
use std::io;
use std::io::{BufReader, ErrorKind};
use std::marker::Model;
use std::net::{TcpStream, ToSocketAddrs};
use std::time::Duration;

/// How many seconds an address is waited for.
const CONNECT_PATIENCE: u64 = 10;

/// How many seconds a read or a write is waited for. A store takes its clients by turns, and a large body some seconds.
const PATIENCE: u64 = 300;

// The two ways of a connection.
#[derive(Drop)]
struct Ways {
    source: Counted<BufReader<TcpStream>>,
    sink: Counted<TcpStream>,
}

#[derive(Drop)]
enum Stage {
    Undialled,
    Open(Ways),
    Closed,
}

/// A connection to an address, `HOST:PORT`, where the host is a name, an IPv4 address, or an IPv6 address in brackets. It is made at
/// the first read or write, within 10 s an address; where that fails, each call fails. A read or a write waits for 300 s. It tells
/// neither what is left to read nor what was written.
#[derive(Drop)]
pub(crate) struct Dial<'a> {
    rt: HostRuntime,
    alloc: Global,
    address: &'a str,
    stage: Stage,
    read_faults: u64,
    write_faults: u64,
    failure: Option<io::Error>,
}

impl<'a> Model for Dial<'a> {
    ghost use Rattle.mt_adapters.specs.Device.{LinkState};

    ghost Value = { LinkState };

    ghost view = { λ d. record { read_faults = d.read_faults; write_faults = d.write_faults } };
}

// Connects to the first place of an address that answers, or gives the last error.
fn connect(rt: &HostRuntime, address: &str) -> io::Result<TcpStream> {
    let mut last = io::Error::from(ErrorKind::NotFound);
    for place in address.to_socket_addrs(rt)? {
        match TcpStream::connect_timeout(rt, &place, Duration::from_secs(CONNECT_PATIENCE)) {
            Ok(stream) => return Ok(stream),
            Err(error) => last = error,
        }
    }
    Err(last)
}

// Both ways of a connection, of which none waits without end.
fn ways_of(alloc: Global, stream: TcpStream) -> io::Result<Ways> {
    stream.set_nodelay(true)?;
    stream.set_read_timeout(Some(Duration::from_secs(PATIENCE)))?;
    stream.set_write_timeout(Some(Duration::from_secs(PATIENCE)))?;
    match Counted::reading(alloc, stream.try_clone()?) {
        Ok(source) => Ok(Ways {
            source,
            sink: Counted::of(stream),
        }),
        Err(AllocError) => Err(io::Error::from(ErrorKind::OutOfMemory)),
    }
}

// Both ways of a connection to an address.
fn connect_both(rt: &HostRuntime, alloc: Global, address: &str) -> io::Result<Ways> {
    let stream = connect(rt, address)?;
    ways_of(alloc, stream)
}

impl<'a> Dial<'a> {
    ghost use Rattle.mt_adapters.specs.Device.{faults_after_read, faults_after_write, first_link};

    /// The connection to an address, which no call has made yet.
    pub(crate) fn to(rt: HostRuntime, alloc: Global, address: &'a str) -> Dial<'a>
        ensures { result ≡ first_link }
    {
        Dial {
            rt,
            alloc,
            address,
            stage: Stage::Undialled,
            read_faults: 0,
            write_faults: 0,
            failure: None,
        }
    }

    /// Why it could not be made, where that was tried.
    pub(crate) fn failure(&self) -> Option<&io::Error> {
        self.failure.as_ref()
    }

    // Makes it, where that wasn't tried yet.
    fn open(&mut self)
        ensures { self.new ≡ self.old }
    {
        if let Stage::Undialled = self.stage {
            match connect_both(&self.rt, self.alloc, self.address) {
                Ok(ways) => self.stage = Stage::Open(ways),
                Err(error) => {
                    self.stage = Stage::Closed;
                    self.failure = Some(error);
                }
            }
        }
    }

    // Counts a read that failed.
    fn count_read(&mut self, step: ReadStep)
        ensures { self.new ≡ record self.old { read_faults = faults_after_read self.old.read_faults step } }
    {
        if let ReadStep::Failed = step {
            self.read_faults = self.read_faults.saturating_add(1);
        }
    }

    // Counts a write that failed.
    fn count_write(&mut self, step: WriteStep)
        ensures { self.new ≡ record self.old { write_faults = faults_after_write self.old.write_faults step } }
    {
        if let WriteStep::Failed = step {
            self.write_faults = self.write_faults.saturating_add(1);
        }
    }
}

impl<'a> Source for Dial<'a> {
    ghost use Rattle.std.specs.Prelude.{◌≡◌, ◌<◌, None, length, refl};
    ghost use Rattle.std.proofs.Common.{◌∙◌};
    ghost use Rattle.mt_edge.specs.Stream.{IsWithinLine, Reads};
    ghost use Rattle.mt_adapters.specs.Device.{faults_after_read};

    ghost left = { λ d. None };

    ghost read_faults = { λ d. d.read_faults };

    ghost source_stays = { λ a b. b.write_faults ≡ a.write_faults };

    fn read(&mut self, into: &mut [u8]) -> ReadStep
        requires { 0 < length into.old }
        ensures reads { Reads None self.old.read_faults into.new result None self.new.read_faults }
        ensures after { self.new ≡ record self.old { read_faults = faults_after_read self.old.read_faults result } }
    {
        self.open();
        let step = match &mut self.stage {
            Stage::Open(ways) => ways.source.read(into),
            Stage::Undialled | Stage::Closed => ReadStep::Failed,
        };
        self.count_read(step);
        step
    }

    fn read_line(&mut self, into: &mut [u8]) -> ReadStep
        requires { 0 < length into.old }
        ensures reads { Reads None self.old.read_faults into.new result None self.new.read_faults }
        ensures line { IsWithinLine result into.new }
        ensures after { self.new ≡ record self.old { read_faults = faults_after_read self.old.read_faults result } }
    {
        self.open();
        let step = match &mut self.stage {
            Stage::Open(ways) => ways.source.read_line(into),
            Stage::Undialled | Stage::Closed => ReadStep::Failed,
        };
        self.count_read(step);
        step
    }

    ghost source_same = { λ a. refl };

    ghost source_joined = { λ a b c ab bc. bc ∙ ab };
}

impl<'a> Sink for Dial<'a> {
    ghost use Rattle.std.specs.Prelude.{◌≡◌, ◌<◌, None, length, refl};
    ghost use Rattle.std.proofs.Common.{◌∙◌};
    ghost use Rattle.mt_edge.specs.Stream.{Writes};
    ghost use Rattle.mt_adapters.specs.Device.{faults_after_write};

    ghost got = { λ d. None };

    ghost write_faults = { λ d. d.write_faults };

    ghost sink_stays = { λ a b. b.read_faults ≡ a.read_faults };

    fn write(&mut self, piece: &[u8]) -> WriteStep
        requires { 0 < length piece.now }
        ensures writes { Writes None self.old.write_faults piece.now result None self.new.write_faults }
        ensures after { self.new ≡ record self.old { write_faults = faults_after_write self.old.write_faults result } }
    {
        self.open();
        let step = match &mut self.stage {
            Stage::Open(ways) => ways.sink.write(piece),
            Stage::Undialled | Stage::Closed => WriteStep::Failed,
        };
        self.count_write(step);
        step
    }

    ghost sink_same = { λ a. refl };

    ghost sink_joined = { λ a b c ab bc. bc ∙ ab };
}

impl<'a> Both for Dial<'a> {
    ghost use Rattle.std.specs.Prelude.{refl, ⊤};

    ghost stays = { λ a b. ⊤ };

    ghost read_keeps = { λ a b same. (refl, same, tt) };

    ghost write_keeps = { λ a b same. (refl, same, tt) };

    ghost same = { λ a. tt };

    ghost joined = { λ a b c ab bc. tt };
}
