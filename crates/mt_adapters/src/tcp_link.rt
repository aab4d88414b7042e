//! A connection of TCP.
ghost use Rattle.std.specs.Prelude.{◌≡◌, ◌<◌, length};

use crate::limits::Limits;
use crate::readiness::Readiness;
use crate::turn::{MESSAGES, Turn};
use crate::wire::{Asked, Moved, Side, Wire};
use libc::net::EPOLL_CTL_DEL;
use mt_edge::{Both, ReadStep, Sink, Source, WriteStep};
use std::marker::Model;
use std::os::fd::RawFd;

/// How an interim reply begins (RFC 9110, section 15.2). The message that it answers goes on.
const INTERIM: &[u8] = b"HTTP/1.1 1";

/// How any reply begins.
const REPLY: &[u8] = b"HTTP/";

/// How often a call is made that has to wait. Before each further one the socket was ready, or a signal came.
const TRIES: u32 = 1024;

// Where a link stands, as far as its calls tell.
#[derive(Clone, Copy, PartialEq, Eq)]
enum Stage {
    // Nothing was read since the last reply, or since the link began.
    Between,
    Within,
    // Within a message whose interim reply was written.
    Interim,
    // It has ended between two messages: the client has ended, or was silent.
    Over,
}

impl Stage {
    // Where a link stands behind a write: a piece that begins a reply begins it.
    fn after_write(self, piece: &[u8]) -> Stage {
        match self {
            Stage::Between => Stage::Between,
            Stage::Within if piece.starts_with(INTERIM) => Stage::Interim,
            Stage::Within => Stage::Between,
            Stage::Interim if piece.starts_with(INTERIM) => Stage::Interim,
            Stage::Interim if piece.starts_with(REPLY) => Stage::Between,
            Stage::Interim => Stage::Interim,
            Stage::Over => Stage::Over,
        }
    }
}

/// A connection that a `TcpDoor` gave. It reads up to 64 KiB ahead, and a write is one call of the system. A read or a write
/// within a message that takes too long is a counted fault (`Limits`). Between two messages it ends where no whole message has
/// come, and after 16 messages of one turn: if its client hasn't ended, the door keeps it, and gives it again.
#[derive(Drop)]
pub struct TcpLink {
    wire: Wire,
    read_faults: u64,
    write_faults: u64,
    stage: Stage,
    turn: Turn,
    // The set of descriptors that it stands in, and whether it still does.
    set: RawFd,
    is_in_set: bool,
    limits: Limits,
}

impl Model for TcpLink {
    ghost use Rattle.mt_adapters.specs.Device.{LinkState};

    ghost Value = { LinkState };

    ghost view = { λ l. record { read_faults = l.read_faults; write_faults = l.write_faults } };
}

impl TcpLink {
    ghost use Rattle.std.specs.Prelude.{None};
    ghost use Rattle.mt_edge.specs.Stream.{IsWithinLine, Reads};
    ghost use Rattle.mt_edge.specs.declared.source.ReadStep.{ReadStep};
    ghost use Rattle.mt_adapters.specs.Device.{faults_after_read, first_link};
    ghost use Rattle.mt_adapters.specs.declared.wire.Asked.{Asked};

    // The link of a wire, in its first turn.
    pub(crate) fn new(wire: Wire, turn: Turn, set: RawFd, limits: Limits) -> TcpLink
        ensures { result ≡ first_link }
    {
        TcpLink {
            wire,
            read_faults: 0,
            write_faults: 0,
            stage: Stage::Between,
            turn,
            set,
            is_in_set: true,
            limits,
        }
    }

    // The same link in a further turn.
    pub(crate) fn again(mut self, turn: Turn) -> TcpLink
        ensures { result ≡ self }
    {
        self.turn = turn;
        self
    }

    pub(crate) fn wire(&self) -> &Wire {
        &self.wire
    }

    pub(crate) fn number(&self) -> RawFd {
        self.wire.number()
    }

    // Reads ahead what has come, as a wire does, of which this and the next three calls are.
    pub(crate) fn come(&mut self, closed: bool, now: u64) -> bool
        ensures { self.new ≡ self.old }
    {
        self.wire.come(closed, now)
    }

    pub(crate) fn rest(&mut self, now: u64) -> bool
        ensures { self.new ≡ self.old }
    {
        self.wire.rest(now)
    }

    pub(crate) fn be_late(&mut self, now: u64) -> bool
        ensures { self.new ≡ self.old }
    {
        self.wire.be_late(now)
    }

    pub(crate) fn look(&mut self, now: u64, last: bool) -> bool
        ensures { self.new ≡ self.old }
    {
        self.wire.look(now, last, self.limits)
    }

    pub(crate) fn into_wire(self) -> Wire {
        self.wire
    }

    // Whether it waits for its next turn.
    pub(crate) fn is_paused(&self) -> bool {
        self.turn.paused && self.stage == Stage::Between
    }

    // Whether it has to be put into the set of descriptors again, which is done then.
    pub(crate) fn has_left_set(&mut self) -> bool
        ensures { self.new ≡ self.old }
    {
        let has_left = !self.is_in_set;
        self.is_in_set = true;
        has_left
    }

    // Whether nothing is to be read for now, between two messages: no whole message has come, or the turn is over, or the link.
    fn is_at_end(&mut self) -> bool
        ensures { self.new ≡ self.old }
    {
        if self.stage != Stage::Between {
            return self.stage == Stage::Over;
        }
        if self.wire.late || self.wire.side != Side::Open && self.wire.ahead.is_empty() {
            self.stage = Stage::Over;
            return true;
        }
        if self.turn.messages >= MESSAGES || !self.wire.is_ready() {
            self.turn.paused = true;
            return true;
        }
        false
    }

    // Notes that so much of a message came.
    fn note(&mut self, count: usize)
        ensures { self.new ≡ self.old }
    {
        if self.stage == Stage::Between {
            self.turn.messages = self.turn.messages.saturating_add(1);
        }
        self.stage = Stage::Within;
        self.turn.note(count);
    }

    // Leaves the set while it is written to, so that what its own client sends does not look like another's.
    fn leave_set(&mut self)
        ensures { self.new ≡ self.old }
    {
        if self.is_in_set {
            os::epoll_ctl(self.set, EPOLL_CTL_DEL, self.wire.number(), 0, 0);
            self.is_in_set = false;
        }
    }

    // Waits until a call would not wait. Whether that was in time.
    fn wait(&mut self, readiness: Readiness) -> bool
        ensures { self.new ≡ self.old }
    {
        if readiness == Readiness::ToWrite {
            self.leave_set();
        }
        !self.wire.late
            && self
                .turn
                .wait(self.wire.number(), readiness, self.set, self.limits)
    }

    // Reads, and waits for it within a message.
    fn step(&mut self, into: &mut [u8], asked: Asked) -> ReadStep
        requires { 0 < length into.old }
        ensures reads { Reads None self.old.read_faults into.new result None self.new.read_faults }
        ensures line { asked ≡ Asked.Line → IsWithinLine result into.new }
        ensures after { self.new ≡ record self.old { read_faults = faults_after_read self.old.read_faults result } }
    {
        if self.is_at_end() {
            return ReadStep::End;
        }
        for _ in 0..TRIES {
            match self.wire.read(into, asked) {
                Moved::Bytes(0) => {}
                Moved::Bytes(count) => {
                    self.note(count);
                    return ReadStep::Took(count);
                }
                Moved::Waits => {
                    if !self.wait(Readiness::ToRead) {
                        break;
                    }
                }
                Moved::Ended => return ReadStep::End,
                Moved::Failed => break,
            }
        }
        self.read_fault()
    }

    fn read_fault(&mut self) -> ReadStep
        ensures result { result ≡ ReadStep.Failed }
        ensures counted { self.new ≡ record self.old { read_faults = faults_after_read self.old.read_faults ReadStep.Failed } }
    {
        self.read_faults = self.read_faults.saturating_add(1);
        ReadStep::Failed
    }
}

impl Source for TcpLink {
    ghost use Rattle.std.specs.Prelude.{◌≡◌, ◌<◌, None, length, refl};
    ghost use Rattle.std.proofs.Common.{◌∙◌};
    ghost use Rattle.mt_edge.specs.Stream.{IsWithinLine, Reads};
    ghost use Rattle.mt_adapters.specs.Device.{faults_after_read};

    ghost left = { λ l. None };

    ghost read_faults = { λ l. l.read_faults };

    ghost source_stays = { λ a b. b.write_faults ≡ a.write_faults };

    fn read(&mut self, into: &mut [u8]) -> ReadStep
        requires { 0 < length into.old }
        ensures reads { Reads None self.old.read_faults into.new result None self.new.read_faults }
        ensures after { self.new ≡ record self.old { read_faults = faults_after_read self.old.read_faults result } }
    {
        self.step(into, Asked::Piece)
    }

    fn read_line(&mut self, into: &mut [u8]) -> ReadStep
        requires { 0 < length into.old }
        ensures reads { Reads None self.old.read_faults into.new result None self.new.read_faults }
        ensures line { IsWithinLine result into.new }
        ensures after { self.new ≡ record self.old { read_faults = faults_after_read self.old.read_faults result } }
    {
        self.step(into, Asked::Line)
    }

    ghost source_same = { λ a. refl };

    ghost source_joined = { λ a b c ab bc. bc ∙ ab };
}

impl Sink for TcpLink {
    ghost use Rattle.std.specs.Prelude.{◌≡◌, ◌<◌, None, length, refl};
    ghost use Rattle.std.proofs.Common.{◌∙◌};
    ghost use Rattle.mt_edge.specs.Stream.{Writes};
    ghost use Rattle.mt_adapters.specs.Device.{faults_after_write};

    ghost got = { λ l. None };

    ghost write_faults = { λ l. l.write_faults };

    ghost sink_stays = { λ a b. b.read_faults ≡ a.read_faults };

    fn write(&mut self, piece: &[u8]) -> WriteStep
        requires { 0 < length piece.now }
        ensures writes { Writes None self.old.write_faults piece.now result None self.new.write_faults }
        ensures after { self.new ≡ record self.old { write_faults = faults_after_write self.old.write_faults result } }
    {
        self.stage = self.stage.after_write(piece);
        for _ in 0..TRIES {
            match self.wire.write(piece) {
                Moved::Bytes(0) => {}
                Moved::Bytes(count) => {
                    self.turn.note(count);
                    return WriteStep::Took(count);
                }
                Moved::Waits => {
                    if !self.wait(Readiness::ToWrite) {
                        break;
                    }
                }
                Moved::Ended | Moved::Failed => break,
            }
        }
        self.write_faults = self.write_faults.saturating_add(1);
        WriteStep::Failed
    }

    ghost sink_same = { λ a. refl };

    ghost sink_joined = { λ a b c ab bc. bc ∙ ab };
}

impl Both for TcpLink {
    ghost use Rattle.std.specs.Prelude.{refl, ⊤};

    ghost stays = { λ a b. ⊤ };

    ghost read_keeps = { λ a b same. (refl, same, tt) };

    ghost write_keeps = { λ a b same. (refl, same, tt) };

    ghost same = { λ a. tt };

    ghost joined = { λ a b c ab bc. tt };
}
