//! What a record of a snapshot says.
use mt_types::{
    AssetBodies, InputLine, Item, JobDocument, PartRow, Path, Row, Stage, Text, TraceEntry,
};

/// A record of a snapshot. A snapshot is a `Begin`, the rows, the jobs, the uploads and an `End`; behind a job stand its inputs, its
/// missing lines and its trace, behind an upload its parts.
#[derive(Debug, Drop)]
pub enum SnapshotRecord<B> {
    /// How much follows.
    Begin {
        /// The number of commands so far, which is the position: at most 2^50 - 1.
        count: u64,
        /// The number of rows but the roots.
        rows: u64,
        /// The number of jobs.
        jobs: u64,
        /// The number of uploads.
        uploads: u64,
    },
    /// What stands at a path.
    Row(Row<B>),
    /// A job, but its lists.
    Job(JobRecord<B>),
    /// An input of the job before.
    Input(Item<B>),
    /// A posted line of the job before that named no object.
    Missing(InputLine),
    /// A committed task of the job before.
    Entry(TraceEntry<B>),
    /// An upload, but its parts.
    Upload(UploadRecord),
    /// A part of the upload before.
    Part(PartRow<B>),
    /// Nothing follows.
    End,
}

/// A job, and how long its lists are.
#[derive(Debug, Drop)]
pub struct JobRecord<B> {
    /// Its number.
    pub number: u64,
    /// What it is asked to do.
    pub document: JobDocument,
    /// When it was made, in seconds since 1970.
    pub created: u64,
    /// Whether its input has ended.
    pub ended: bool,
    /// Whether it was cancelled.
    pub cancelled: bool,
    /// When it was done, in seconds since 1970.
    pub done: Option<u64>,
    /// For each phase, the bodies that its assets held when the job was made.
    pub assets: AssetBodies<B>,
    /// The number of its inputs.
    pub inputs: u32,
    /// The number of its missing lines.
    pub missing: u32,
    /// The number of its committed tasks.
    pub entries: u64,
}

/// An upload, and how many parts it has.
#[derive(Debug, Drop)]
pub struct UploadRecord {
    /// Its number.
    pub number: u64,
    /// Where the object is to stand.
    pub path: Path,
    /// The object's content type: at most 255 bytes of 32 to 126.
    pub content_type: Text,
    /// When it was begun, in seconds since 1970.
    pub moment: u64,
    /// How far it has come.
    pub stage: Stage,
    /// The number of its parts, at most 10,000; none once it is no longer open.
    pub parts: u16,
}
