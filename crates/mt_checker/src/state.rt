//! What a checker keeps of the lines so far.
use crate::feed::Gathered;
use crate::sheet::PhaseSheet;
use mt_path::Path;
use mt_types::PhaseKind;

/// How far the phases are listed.
#[derive(Drop)]
pub(crate) enum Standing {
    /// A phase has a place that is not listed, and none before it has.
    Phase(PhaseSheet),
    /// Each phase is listed whole.
    Names {
        /// The names of the outputs.
        names: Vec<Path>,
        /// How many of them were there.
        next: usize,
    },
}

/// What is kept of the lines so far.
#[derive(Drop)]
pub(crate) enum State {
    /// No line was there.
    Start,
    /// The phases were there, and inputs.
    Inputs {
        /// How the phases cut their feeds.
        kinds: Vec<PhaseKind>,
        /// What the first phase reads.
        feed: Gathered,
    },
    /// Tasks or outputs were there too.
    Listed {
        /// How the phases cut their feeds.
        kinds: Vec<PhaseKind>,
        /// How far they are listed.
        standing: Standing,
    },
    /// The last line was there.
    Done,
    /// A line was refused.
    Refused,
}
