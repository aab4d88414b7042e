//! What a helper is asked for.
use mt_base::{Sequence, Text};
use mt_split::KeyRule;

/// What a helper is asked for. Places and names are texts; once they are known to name paths, they are the texts of these.
#[derive(Debug, Drop)]
pub enum Tool {
    /// `mpipe`: what is read is a new object that is an output.
    Pipe {
        /// Where it is to stand; a fresh name below the job where it is not said.
        place: Option<Text>,
        /// The reducer that is to read it, where it is said.
        reducer: Option<u32>,
    },
    /// `mtee`: what is read is written too, and is a new object.
    Tee {
        /// Where it is to stand.
        place: Text,
    },
    /// `mcat`: objects that are there are outputs. Nothing is read.
    Cat {
        /// The objects' names, at least one.
        names: Sequence<Text>,
    },
    /// `msplit`: the lines of what is read are shared out into new objects that are outputs, one a reducer.
    Split {
        /// How many reducers there are, 1 to 1,024.
        count: u32,
        /// What of a line is its key.
        rule: KeyRule,
    },
}
