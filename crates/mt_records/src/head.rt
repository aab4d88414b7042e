//! What a record asks for.
use mt_base::Text;

/// What a record asks for, as a helper writes it. Its texts have at most 1,200 bytes, and name no path yet.
#[derive(Debug, PartialEq, Eq, Drop)]
pub enum RecordHead {
    /// A new object that is an output too.
    Emit {
        /// Where it is to stand; a fresh name below the job where it is not said.
        place: Option<Text>,
        /// The reducer that is to read it, where it is said.
        reducer: Option<u32>,
    },
    /// A new object that is no output.
    Keep {
        /// Where it is to stand.
        place: Text,
    },
    /// An output that is an object that is there. No bytes stand behind it.
    Ref {
        /// The object's name.
        name: Text,
    },
}
