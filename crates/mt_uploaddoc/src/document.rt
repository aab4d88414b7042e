//! The upload that is asked for.
use mt_base::Text;
use mt_path::Path;

/// A commit lists at most so many parts: an upload has those of the indexes 0 to 9,999.
pub const MOST_PARTS: usize = 10_000;

/// What an upload is asked to become.
#[derive(Debug, PartialEq, Eq, Drop)]
pub struct UploadDocument {
    /// Where the object is to stand.
    pub path: Path,
    /// The object's content type: at most 255 bytes of 32 to 126.
    pub content_type: Text,
}
