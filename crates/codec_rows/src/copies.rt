//! Copies of values that have no bytes. A body's digest is sixteen times the byte 7.
use crate::show::{Show, put};
use mt_rows::{Row, Stop};
use mt_types::{
    Body, Bytes, Duplicate, Entry, Field, InputLine, Item, Job, JobDocument, Made, Object, Outcome,
    PartRow, Path, Phase, PhaseKind, Raw, Reply, ReplyBody, Sequence, Stage, Text, TraceEntry,
    Upload,
};
use std::alloc::{AllocError, Global};

/// Answers a row by the copy of the value that it makes.
pub fn answer(alloc: Global, row: &Row, out: &mut String) -> Result<(), Stop> {
    match row.text(0)? {
        "body" => put_copy(alloc, body_at(row, 1)?, "", out),
        "size" => Ok(write!(out, "{}", body_at(row, 1)?.size())?),
        "object" => put_copy(alloc, object_of(alloc, row)?, "", out),
        "directory" => put_copy(alloc, directory_of(alloc, row)?, "", out),
        _ => answer_at_job(alloc, row, out),
    }
}

fn answer_at_job(alloc: Global, row: &Row, out: &mut String) -> Result<(), Stop> {
    match row.text(0)? {
        "job" => put_copy(alloc, job_of(alloc, row)?, "", out),
        "upload" => put_copy(alloc, upload_of(alloc, row)?, "", out),
        "raw" => put_copy(alloc, raw_of(alloc, row)?, "", out),
        "reply" => put_copy(alloc, reply_of(alloc, row)?, "", out),
        _ => Err(Stop::NoSuchRow),
    }
}

/// Appends what stands before it and the text of a value's copy.
pub fn put_copy<T: Duplicate + Drop + Show>(
    alloc: Global,
    value: T,
    before: &str,
    out: &mut String,
) -> Result<(), Stop> {
    out.push_str(before)?;
    let copy = value.copy(alloc)?;
    Ok(copy.show(out)?)
}

// A path of the login `l`.
fn path_at(alloc: Global, row: &Row, place: usize) -> Result<Path, Stop> {
    match Path::plain(alloc, "l", row.bytes(place)?) {
        Ok(path) => Ok(path),
        Err(_) => Err(Stop::NoSuchRow),
    }
}

fn text_at(alloc: Global, row: &Row, place: usize) -> Result<Text, Stop> {
    Ok(Text::from_str(alloc, row.text(place)?)?)
}

fn bytes_at(alloc: Global, row: &Row, place: usize) -> Result<Bytes, Stop> {
    Ok(Bytes::from_slice(alloc, row.bytes(place)?)?)
}

// The first piece's place, and the length.
fn body_at(row: &Row, place: usize) -> Result<Body, Stop> {
    Ok(Body {
        first: row.number(place)?,
        len: row.number(place.wrapping_add(1))?,
        md5: [7; 16],
    })
}

fn one<T: Drop>(alloc: Global, value: T) -> Result<Sequence<T>, Stop> {
    let mut list = Sequence::new(alloc);
    list.push(value)?;
    Ok(list)
}

// `object PATH FIRST LENGTH NUMBER TYPE DURABILITY NAME VALUE MTIME`
fn object_of(alloc: Global, row: &Row) -> Result<mt_types::Row<Body>, Stop> {
    let number = row.number(4)?;
    let mtime = row.number(9)?;
    let body = body_at(row, 2)?;
    let durability = row.text(6)?.parse::<u8>().ok();
    let path = path_at(alloc, row, 1)?;
    let content_type = text_at(alloc, row, 5)?;
    let metadata = metadata_of(alloc, row)?;
    let entry = Entry::Object(Object {
        number,
        body,
        content_type,
        durability,
        metadata,
        mtime,
    });
    Ok(mt_types::Row { path, entry })
}

fn metadata_of(alloc: Global, row: &Row) -> Result<Sequence<Field>, Stop> {
    let name = text_at(alloc, row, 7)?;
    let value = bytes_at(alloc, row, 8)?;
    one(alloc, Field { name, value })
}

// `directory PATH MTIME`
fn directory_of(alloc: Global, row: &Row) -> Result<mt_types::Row<Body>, Stop> {
    Ok(mt_types::Row {
        path: path_at(alloc, row, 1)?,
        entry: Entry::Directory {
            mtime: row.number(2)?,
        },
    })
}

// `job PATH FIRST LENGTH NUMBER NAME EXEC INIT LINE CREATED DONE`: the path is that of its one asset, of its input and
// of its output; it has one reduce phase of two reducers, and its input has ended.
fn job_of(alloc: Global, row: &Row) -> Result<Job<Body>, Stop> {
    let number = row.number(4)?;
    let created = row.number(9)?;
    let done = Some(row.number(10)?);
    let document = document_of(alloc, row)?;
    let assets = assets_of(alloc, row)?;
    let inputs = items_of(alloc, row)?;
    let missing = missing_of(alloc, row)?;
    let trace = trace_of(alloc, row)?;
    Ok(Job {
        number,
        document,
        assets,
        inputs,
        missing,
        ended: true,
        cancelled: false,
        created,
        done,
        trace,
    })
}

fn assets_of(alloc: Global, row: &Row) -> Result<Sequence<Sequence<Body>>, Stop> {
    let bodies = one(alloc, body_at(row, 2)?)?;
    one(alloc, bodies)
}

fn items_of(alloc: Global, row: &Row) -> Result<Sequence<Item<Body>>, Stop> {
    let body = body_at(row, 2)?;
    let name = path_at(alloc, row, 1)?;
    let root = text_at(alloc, row, 5)?;
    let item = Item {
        name,
        root,
        body,
        reducer: Some(1),
    };
    one(alloc, item)
}

fn missing_of(alloc: Global, row: &Row) -> Result<Sequence<InputLine>, Stop> {
    let line = text_at(alloc, row, 8)?;
    one(alloc, InputLine::Other(line))
}

fn trace_of(alloc: Global, row: &Row) -> Result<Sequence<TraceEntry<Body>>, Stop> {
    let items = items_of(alloc, row)?;
    let entry = TraceEntry {
        phase: 0,
        place: 1,
        position: 3,
        outcome: Outcome::Good(items),
    };
    one(alloc, entry)
}

fn document_of(alloc: Global, row: &Row) -> Result<JobDocument, Stop> {
    let name = text_at(alloc, row, 5)?;
    let phases = phases_of(alloc, row)?;
    Ok(JobDocument { name, phases })
}

fn phases_of(alloc: Global, row: &Row) -> Result<Sequence<Phase>, Stop> {
    let exec = text_at(alloc, row, 6)?;
    let init = text_at(alloc, row, 7)?;
    let assets = paths_of(alloc, row)?;
    let phase = Phase {
        kind: PhaseKind::Reduce { count: 2 },
        exec,
        init: Some(init),
        assets,
    };
    one(alloc, phase)
}

fn paths_of(alloc: Global, row: &Row) -> Result<Sequence<Path>, Stop> {
    let path = path_at(alloc, row, 1)?;
    one(alloc, path)
}

// `upload PATH FIRST LENGTH NUMBER TYPE MOMENT INDEX`, open, with one part of the same number.
fn upload_of(alloc: Global, row: &Row) -> Result<Upload<Body>, Stop> {
    let number = row.number(4)?;
    let moment = row.number(6)?;
    let path = path_at(alloc, row, 1)?;
    let content_type = text_at(alloc, row, 5)?;
    let parts = parts_of(alloc, row)?;
    Ok(Upload {
        number,
        path,
        content_type,
        moment,
        parts,
        stage: Stage::Open,
    })
}

fn parts_of(alloc: Global, row: &Row) -> Result<Sequence<PartRow<Body>>, Stop> {
    let number = row.number(4)?;
    let body = body_at(row, 2)?;
    let Ok(index) = row.text(7)?.parse::<u16>() else {
        return Err(Stop::NoSuchRow);
    };
    let part = PartRow {
        index,
        number,
        body,
    };
    one(alloc, part)
}

// `raw STATUS STDERR TOTAL`
fn raw_of(alloc: Global, row: &Row) -> Result<Raw, Stop> {
    let total = row.number(3)?;
    let Ok(status) = row.text(1)?.parse::<u32>() else {
        return Err(Stop::NoSuchRow);
    };
    let stderr = bytes_at(alloc, row, 2)?;
    Ok(Raw {
        status,
        stderr,
        made: Made::TooLarge { total },
    })
}

// `reply FROM FIRST LENGTH TO STATUS`, with no fields; the connection ends behind it.
fn reply_of(alloc: Global, row: &Row) -> Result<Reply<Body>, Stop> {
    let from = row.number(1)?;
    let body = body_at(row, 2)?;
    let to = row.number(4)?;
    let Ok(status) = row.text(5)?.parse::<u16>() else {
        return Err(Stop::NoSuchRow);
    };
    Ok(Reply {
        status,
        fields: Sequence::new(alloc),
        body: ReplyBody::Part { body, from, to },
        closes: true,
    })
}

impl Show for mt_types::Row<Body> {
    fn show(&self, out: &mut String) -> Result<(), AllocError> {
        self.path.show(out)?;
        match &self.entry {
            Entry::Directory { mtime } => put(out, ", directory, mtime", mtime),
            Entry::Object(object) => {
                put(out, ", object", &object.number)?;
                put(out, ", body", &object.body)?;
                put(out, ", type", &object.content_type)?;
                put(out, ", durability", &object.durability)?;
                put(out, ", metadata", &object.metadata)?;
                put(out, ", mtime", &object.mtime)
            }
        }
    }
}

impl Show for Job<Body> {
    fn show(&self, out: &mut String) -> Result<(), AllocError> {
        put(out, "job", &self.number)?;
        put(out, ",", &self.document)?;
        put(out, ", assets", &self.assets)?;
        put(out, ", inputs", &self.inputs)?;
        put(out, ", missing", &self.missing)?;
        put(out, ", ended", &self.ended)?;
        put(out, ", cancelled", &self.cancelled)?;
        put(out, ", created", &self.created)?;
        put(out, ", done", &self.done)?;
        put(out, ", trace", &self.trace)
    }
}

impl Show for Upload<Body> {
    fn show(&self, out: &mut String) -> Result<(), AllocError> {
        put(out, "upload", &self.number)?;
        put(out, ", path", &self.path)?;
        put(out, ", type", &self.content_type)?;
        put(out, ", moment", &self.moment)?;
        put(out, ", parts", &self.parts)?;
        let stage = self.stage;
        write!(out, ", {stage:?}")
    }
}

impl Show for Raw {
    fn show(&self, out: &mut String) -> Result<(), AllocError> {
        put(out, "status", &self.status)?;
        put(out, ", stderr", &self.stderr)?;
        match &self.made {
            Made::Whole { out: bytes, .. } => put(out, ", wrote", bytes),
            Made::TooLarge { total } => put(out, ", too large, total", total),
        }
    }
}

impl Show for Reply<Body> {
    fn show(&self, out: &mut String) -> Result<(), AllocError> {
        put(out, "status", &self.status)?;
        put(out, ", fields", &self.fields)?;
        match &self.body {
            ReplyBody::Held(bytes) => put(out, ", holds", bytes)?,
            ReplyBody::Part { body, from, to } => {
                put(out, ", from", from)?;
                put(out, ", to", to)?;
                put(out, ", of", body)?;
            }
        }
        put(out, ", closes", &self.closes)
    }
}
