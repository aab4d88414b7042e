//! A client's socket, and what was read ahead of it.
ghost use Rattle.std.specs.Prelude.{ℕ, ◌≤◌, length, IfOk};
ghost use Rattle.mt_adapters.specs.Wires.{MovedAtMost, MovedWithin};

use crate::ahead::{Ahead, MOST};
use crate::limits::Limits;
use crate::readiness::millis;
use crate::whole::{has_head, is_whole};
use std::alloc::Global;
use std::io;
use std::io::{ErrorKind, Read, Write};
use std::net::{Shutdown, TcpStream};
use std::os::fd::{AsRawFd, RawFd};

/// How often a socket is read at a time, so that it is read to its end.
const READS: u32 = 64;

/// A read of at least so many bytes goes past the buffer where that is empty.
const LARGE: usize = 4096;

/// How often what comes behind the last message is read and dropped, 64 KiB each time.
const LAST_READS: u32 = 1024;

// Whether more comes from a client, as far as is known.
#[derive(Clone, Copy, PartialEq, Eq)]
pub(crate) enum Side {
    Open,
    // It has ended.
    Ended,
    // The socket has failed.
    Failed,
}

// What a read asks for.
#[derive(Clone, Copy, PartialEq, Eq)]
pub(crate) enum Asked {
    Piece,
    // Nothing behind a line.
    Line,
}

// What one call of a socket did.
#[derive(Clone, Copy, PartialEq, Eq)]
pub(crate) enum Moved {
    // So many bytes came or went: none where a signal cut the call short.
    Bytes(usize),
    // The call would have to wait.
    Waits,
    Ended,
    Failed,
}

// A socket that does not block. Its set tells of a change once, so that it is read until it would wait.
#[derive(Drop)]
pub(crate) struct Wire {
    stream: TcpStream,
    pub(crate) ahead: Ahead,
    pub(crate) side: Side,
    // More may have come than was read.
    more: bool,
    // The client is known to have ended. Its set has told so, and won't again, so that it is read until its end comes.
    ends: bool,
    // It was waited for too long.
    pub(crate) late: bool,
    // It stands in the queue of links that can be answered.
    queued: bool,
    // When it was last read or served, and when the message at its front began.
    pub(crate) since: u64,
    began: u64,
    // How often what comes behind the last message was read.
    last_reads: u32,
}

impl Wire {
    // The wire of a stream that has just come.
    pub(crate) fn new(alloc: Global, stream: TcpStream, now: u64) -> io::Result<Wire> {
        stream.set_nonblocking(true)?;
        stream.set_nodelay(true)?;
        Ok(Wire {
            stream,
            ahead: Ahead::new(alloc),
            side: Side::Open,
            more: false,
            ends: false,
            late: false,
            queued: false,
            since: now,
            began: now,
            last_reads: 0,
        })
    }

    pub(crate) fn number(&self) -> RawFd {
        self.stream.as_raw_fd()
    }

    // Notes what a read gave.
    fn note(&mut self, read: io::Result<(usize, bool)>) -> Moved
        ensures { (most : ℕ) → IfOk read (λ r. r.0 ≤ most) → MovedAtMost result most }
    {
        match read {
            Ok((0, _)) => {
                self.side = Side::Ended;
                self.more = false;
                Moved::Ended
            }
            Ok((count, filled)) => {
                self.more = filled || self.ends;
                Moved::Bytes(count)
            }
            Err(error) if error.kind() == ErrorKind::WouldBlock => {
                self.more = false;
                Moved::Waits
            }
            Err(error) if error.kind() == ErrorKind::Interrupted => Moved::Bytes(0),
            Err(_) => {
                self.side = Side::Failed;
                self.more = false;
                Moved::Failed
            }
        }
    }

    // Reads ahead, once.
    pub(crate) fn read_ahead(&mut self) -> Moved {
        match self.side {
            Side::Open => {}
            Side::Ended => return Moved::Ended,
            Side::Failed => return Moved::Failed,
        }
        let read = self.ahead.read_more(&mut self.stream);
        self.note(read)
    }

    // Reads past the buffer, once.
    fn read_into(&mut self, into: &mut [u8]) -> Moved
        ensures { MovedAtMost result (length into.new) }
    {
        let read = match self.stream.read(into) {
            Ok(count) => Ok((count, count == into.len())),
            Err(error) => Err(error),
        };
        self.note(read)
    }

    // Reads once, or as much of a line as has come: of what was read ahead, or else of the socket.
    pub(crate) fn read(&mut self, into: &mut [u8], asked: Asked) -> Moved
        ensures most { MovedAtMost result (length into.new) }
        ensures line { MovedWithin asked result into.new }
    {
        if self.ahead.is_empty() {
            if asked == Asked::Piece && into.len() >= LARGE {
                return self.read_into(into);
            }
            match self.read_ahead() {
                Moved::Bytes(_) => {}
                other => return other,
            }
        }
        match asked {
            Asked::Piece => Moved::Bytes(self.ahead.take(into)),
            Asked::Line => Moved::Bytes(self.ahead.take_line(into)),
        }
    }

    // Writes once.
    pub(crate) fn write(&mut self, piece: &[u8]) -> Moved
        ensures { MovedAtMost result (length piece.now) }
    {
        match self.stream.write(piece) {
            Ok(0) => Moved::Failed,
            Ok(count) => Moved::Bytes(count),
            Err(error) if error.kind() == ErrorKind::WouldBlock => Moved::Waits,
            Err(error) if error.kind() == ErrorKind::Interrupted => Moved::Bytes(0),
            Err(_) => Moved::Failed,
        }
    }

    // Reads ahead what has come; `closed` where the client is known to send no more than that.
    fn fill(&mut self, closed: bool, now: u64) {
        self.ends |= closed;
        self.more |= closed;
        for _ in 0..READS {
            if self.side != Side::Open || self.ahead.left().len() >= MOST {
                return;
            }
            let begins = self.ahead.is_empty();
            let Moved::Bytes(count) = self.read_ahead() else {
                return;
            };
            self.since = now;
            if begins {
                self.began = now;
            }
            if !self.more && count > 0 {
                return;
            }
        }
    }

    // Whether it can be served without waiting: a whole message has come, or nothing more will.
    pub(crate) fn is_ready(&self) -> bool {
        self.late || self.side != Side::Open || is_whole(self.ahead.left())
    }

    // Whether it can be served and does not stand in the queue, into which it is put then.
    fn joins(&mut self) -> bool {
        let joins = !self.queued && self.is_ready();
        self.queued |= joins;
        joins
    }

    // Reads ahead what has come; `closed` where the client sends no more than that. Whether it joins the queue.
    pub(crate) fn come(&mut self, closed: bool, now: u64) -> bool {
        self.fill(closed, now);
        self.joins()
    }

    // Notes that a turn of it is over, behind which it is kept. Whether it joins the queue.
    pub(crate) fn rest(&mut self, now: u64) -> bool {
        self.since = now;
        self.began = now;
        self.queued = false;
        self.ahead.shrink();
        if self.more {
            self.fill(false, now);
        }
        self.joins()
    }

    // Gives it no more time, unless something has come. Whether it joins the queue.
    pub(crate) fn be_late(&mut self, now: u64) -> bool {
        self.fill(false, now);
        self.late |= self.ahead.is_empty();
        self.joins()
    }

    // Looks whether it was waited for too long; `last` where no new link is asked for. Whether it joins the queue.
    pub(crate) fn look(&mut self, now: u64, last: bool, limits: Limits) -> bool {
        if !self.queued && self.is_late(now, last, limits) {
            // While another had its turn, something may have come that was not read.
            self.fill(false, now);
            self.late = !self.is_ready() && self.is_late(now, last, limits);
        }
        self.joins()
    }

    // Whether it has been waited for too long; `last` where no new link is asked for.
    fn is_late(&self, now: u64, last: bool, limits: Limits) -> bool {
        let end = if !self.ahead.is_empty() {
            if has_head(self.ahead.left()) {
                self.since.saturating_add(millis(limits.message))
            } else {
                self.began.saturating_add(millis(limits.head))
            }
        } else {
            let most = if last { limits.last } else { limits.idle };
            self.since.saturating_add(millis(most))
        };
        end <= now
    }

    // Whether nothing of a message has come since then.
    pub(crate) fn idles_since(&self, then: u64) -> bool {
        !self.queued && self.ahead.is_empty() && self.since <= then
    }

    // Tells the client that no more is written. Whether that was possible.
    pub(crate) fn end(&mut self, now: u64) -> bool {
        self.since = now;
        self.side == Side::Open && !self.late && self.stream.shutdown(Shutdown::Write).is_ok()
    }

    // Reads and drops what has come behind the last message. Whether nothing more is to be waited for.
    pub(crate) fn drop_rest(&mut self) -> bool {
        for _ in self.last_reads..LAST_READS {
            self.ahead.clear();
            match self.read_ahead() {
                Moved::Bytes(_) => self.last_reads = self.last_reads.saturating_add(1),
                Moved::Waits => return false,
                Moved::Ended | Moved::Failed => return true,
            }
        }
        true
    }
}
