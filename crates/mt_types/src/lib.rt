//! The values of an account: what stands at its paths, its jobs, its uploads, and the commands that
//! change them. Plain data, generic in what a body is: a reference into the log where the store keeps
//! it, and the list of its bytes where its meaning is told.
//!
//! - `body`, `object`: a body, what stands at a path, and fields.
//! - `document`, `task`, `job`: what a job is asked to do, what a task is run with and leaves, and the job itself; `live`:
//!   what is told of it.
//! - `upload`: an object that is put in parts.
//! - `command`: what the log holds; `refusal`: why a command is not taken; `reply`: what a request is answered.
//! - `fields`: the fields of one name; `limits`, `texts`: what values may be.
//! - `specs/Values`: the same values over other bodies; `specs/Limits`, `specs/Fields`: the words of these.
#![tactic(auto)]

mod body;
mod command;
mod document;
mod fields;
mod job;
mod limits;
mod live;
mod object;
mod refusal;
mod reply;
mod task;
mod texts;
mod upload;

pub use body::Body;
pub use command::{Archive, Command};
pub use document::{InputLine, JobDocument, Lines, Paths, Phase, PhaseKind, Phases};
pub use fields::{first_value, has_field, is_named};
pub use job::{AssetBodies, Item, Items, Job, JobList, Outcome, Task, Tasks, Trace, TraceEntry};
pub use limits::{
    LARGEST_BODY, LARGEST_DURABILITY, LARGEST_METADATA, LARGEST_OUTPUT, LARGEST_PIECE, LAST_PART,
    LONGEST_COMMAND_LINE, LONGEST_CONTENT_TYPE, LONGEST_NAME, LONGEST_STDERR, MOST_ASSETS,
    MOST_COMMANDS, MOST_METADATA, MOST_PHASES, MOST_RECORDS, MOST_REDUCERS, NUMBERS_A_COMMAND,
    TOKEN_MARKS, constants_are,
};
pub use live::{JobStand, LiveText};
pub use mt_base::{Bytes, Duplicate, LAST_MOMENT, NUMBERS_END, Sequence, Text};
pub use mt_path::{Area, Path, PathError};
pub use object::{Entry, Field, Fields, Object, Row, RowList};
pub use refusal::Refusal;
pub use reply::{Reply, ReplyBody};
pub use task::{
    Asset, Assets, Fate, Files, Made, Raw, RecordFile, Run, TaskFailure, TaskRecord, TaskRecords,
};
pub use texts::{
    are_by_name, is_command_line, is_content_type, is_job_name, is_line_text, is_metadata_name,
    is_metadata_within, is_plain_text,
};
pub use upload::{PartNumbers, PartRow, PartRows, Stage, Upload, UploadList};
