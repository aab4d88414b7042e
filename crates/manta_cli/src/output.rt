//! Standard output, which knows what was last written to it.
ghost use Rattle.std.specs.Prelude.{◌≡◌};

use mt_adapters::StdSink;
use mt_edge::{Sink, WriteStep};
use std::marker::Model;

/// How much is kept of what was last written, in bytes.
const KEPT: usize = 512;

/// Standard output, and the front of the piece that was last written to it: up to 512 bytes. It doesn't tell what it got.
#[derive(Drop)]
pub(crate) struct Output {
    sink: StdSink,
    last: [u8; KEPT],
    len: usize,
}

impl Model for Output {
    ghost use Rattle.std.specs.Prelude.{◌≤◌, ℕ};
    ghost use Rattle.manta_cli.specs.declared.output.TheConstants.{KEPT};

    ghost Value = { ℕ };

    ghost view = { λ o. o.sink.faults };

    ghost invariant = { λ o. o.len ≤ KEPT };
}

impl Output {
    /// Standard output, to which nothing was written yet.
    pub(crate) fn over(sink: StdSink) -> Output
        ensures { result ≡ sink.faults }
    {
        Output {
            sink,
            last: [0; KEPT],
            len: 0,
        }
    }

    /// The front of the piece that was last written.
    pub(crate) fn last(&self) -> &[u8] {
        &self.last[..self.len]
    }

    // Keeps the front of a piece.
    fn keep(&mut self, piece: &[u8])
        ensures { self.new ≡ self.old }
    {
        let len = piece.len().min(KEPT);
        self.last[..len].copy_from_slice(&piece[..len]);
        self.len = len;
    }
}

impl Sink for Output {
    ghost use Rattle.std.specs.Prelude.{◌≡◌, ◌<◌, None, length, ⊤};
    ghost use Rattle.mt_edge.specs.Stream.{Writes};

    ghost got = { λ o. None };

    ghost write_faults = { λ o. o };

    ghost sink_stays = { λ a b. ⊤ };

    fn write(&mut self, piece: &[u8]) -> WriteStep
        requires { 0 < length piece.now }
        ensures writes { Writes None self.old piece.now result None self.new }
    {
        self.keep(piece);
        self.sink.write(piece)
    }

    ghost sink_same = { λ a. tt };

    ghost sink_joined = { λ a b c h k. tt };
}
