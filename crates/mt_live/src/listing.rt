//! A line of a page of a directory.
ghost use Rattle.std.specs.Prelude.{◌≡◌, ◌<◌, ◌≤◌, ◌^◌, ◌++◌, IfOk};
ghost use Rattle.serde_json.specs.View.{view};
ghost use Rattle.serde_json.specs.Written.{compact_text};
ghost use Rattle.mt_live.specs.LiveTexts.{IsEntryListable, directory_data, job_line, line_data, object_data, page_line};

use mt_base::{LAST_MOMENT, Text, ascii};
use mt_ident::{iso_time, uuid_text};
use mt_types::{Body, Entry};
use serde_json::{Value, json};
use std::alloc::{AllocError, Global};

/// The line of a child of a directory, by its name and what stands there: JSON (RFC 8259), ended by a line feed. An
/// object is `{"etag":..,"mtime":..,"name":..,"size":..,"type":"object"}`, a directory has no `etag` and no `size`.
/// Of an object it takes the number, the size and the moment, so that neither its type nor its metadata is copied.
pub fn page_line(alloc: Global, name: &str, entry: &Entry<Body>) -> Result<Text, AllocError>
    requires { IsEntryListable entry.now }
    ensures { IfOk result (λ line. line ≡ page_line (λ b. b.len) name.now entry.now) }
{
    let value = line_value(alloc, name, entry)?;
    let mut line = value.to_string(alloc)?;
    line.push_str("\n")?;
    Ok(Text::from_string(line))
}

/// The line of a job's folder, by the number of the job and the moment at which it was made, as the page of all jobs has it.
pub fn job_line(alloc: Global, job: u64, created: u64) -> Result<Text, AllocError>
    requires number { job < 2 ^ 62 }
    requires created { created ≤ LAST_MOMENT }
    ensures { IfOk result (λ line. line ≡ job_line job created) }
{
    let name = uuid_text(2, job);
    let value = directory_value(alloc, ascii(&name), created)?;
    let mut text = value.to_string(alloc)?;
    text.push_str("\n")?;
    Ok(Text::from_string(text))
}

// A child of a directory as a value.
fn line_value(alloc: Global, name: &str, entry: &Entry<Body>) -> Result<Value, AllocError>
    requires { IsEntryListable entry.now }
    ensures { IfOk result (λ v. view v ≡ line_data (λ b. b.len) name.now entry.now) }
{
    match entry {
        Entry::Directory { mtime } => directory_value(alloc, name, *mtime),
        Entry::Object(object) => {
            object_value(alloc, name, object.number, object.mtime, object.body.len)
        }
    }
}

// A directory of this name as a value.
#[tactic(auto, unfolding(crate::specs::LiveTexts::directory_data))]
fn directory_value(alloc: Global, name: &str, mtime: u64) -> Result<Value, AllocError>
    requires { mtime ≤ LAST_MOMENT }
    ensures { IfOk result (λ v. view v ≡ directory_data name.now mtime) }
{
    let time = iso_time(mtime);
    let time = ascii(&time);
    json!(in alloc; {"mtime": time, "name": name, "type": "directory"})
}

// An object of this name as a value.
#[tactic(auto, unfolding(crate::specs::LiveTexts::object_data))]
fn object_value(
    alloc: Global,
    name: &str,
    number: u64,
    mtime: u64,
    size: u64,
) -> Result<Value, AllocError>
    requires mtime { mtime ≤ LAST_MOMENT }
    requires number { number < 2 ^ 62 }
    ensures { IfOk result (λ v. view v ≡ object_data name.now number mtime size) }
{
    let etag = uuid_text(1, number);
    let etag = ascii(&etag);
    let time = iso_time(mtime);
    let time = ascii(&time);
    json!(in alloc; {"etag": etag, "mtime": time, "name": name, "size": size, "type": "object"})
}
