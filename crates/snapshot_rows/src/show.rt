//! Records as text: fields by their names, lists in brackets, texts in quotes.
use mt_rows::put_escaped;
use mt_snapshot::{JobRecord, SnapshotRecord, UploadRecord};
use mt_types::{
    Body, Entry, Field, InputLine, Item, Object, Outcome, PartRow, Path, Row, Sequence, TraceEntry,
};
use std::alloc::AllocError;

/// The kind of a record.
pub fn kind_of(record: &SnapshotRecord<Body>) -> &'static str {
    match record {
        SnapshotRecord::Begin { .. } => "begin",
        SnapshotRecord::Row(_) => "row",
        SnapshotRecord::Job(_) => "job",
        SnapshotRecord::Input(_) => "input",
        SnapshotRecord::Missing(_) => "missing",
        SnapshotRecord::Entry(_) => "entry",
        SnapshotRecord::Upload(_) => "upload",
        SnapshotRecord::Part(_) => "part",
        SnapshotRecord::End => "end",
    }
}

fn put_quoted(out: &mut String, bytes: &[u8]) -> Result<(), AllocError> {
    out.push('"')?;
    put_escaped(out, bytes)?;
    out.push('"')
}

fn put_path(out: &mut String, path: &Path) -> Result<(), AllocError> {
    out.push('/')?;
    out.push_str(path.area().name())?;
    for k in 0..path.len() {
        out.push('/')?;
        put_escaped(out, path.part(k))?;
    }
    Ok(())
}

fn put_body(out: &mut String, body: &Body) -> Result<(), AllocError> {
    write!(out, ", body {}+{}", body.first, body.len)
}

fn put_field(out: &mut String, field: &Field) -> Result<(), AllocError> {
    out.push_str(", ")?;
    put_quoted(out, field.name.as_bytes())?;
    out.push(' ')?;
    put_quoted(out, field.value.as_slice())
}

fn put_object(out: &mut String, object: &Object<Body>) -> Result<(), AllocError> {
    write!(
        out,
        ", object {}, moment {}, type ",
        object.number, object.mtime
    )?;
    put_quoted(out, object.content_type.as_bytes())?;
    write!(out, ", durability {:?}", object.durability)?;
    for field in object.metadata.as_slice() {
        put_field(out, field)?;
    }
    put_body(out, &object.body)
}

fn put_row(out: &mut String, row: &Row<Body>) -> Result<(), AllocError> {
    out.push_str("row ")?;
    put_path(out, &row.path)?;
    match &row.entry {
        Entry::Directory { mtime } => write!(out, ", directory, moment {mtime}"),
        Entry::Object(object) => put_object(out, object),
    }
}

fn put_assets(out: &mut String, assets: &[Sequence<Body>]) -> Result<(), AllocError> {
    for bodies in assets {
        out.push_str(", assets [")?;
        for body in bodies.as_slice() {
            put_body(out, body)?;
        }
        out.push(']')?;
    }
    Ok(())
}

fn put_counts(out: &mut String, job: &JobRecord<Body>) -> Result<(), AllocError> {
    write!(
        out,
        ", inputs {}, missing {}, entries {}",
        job.inputs, job.missing, job.entries
    )
}

fn put_job(out: &mut String, job: &JobRecord<Body>) -> Result<(), AllocError> {
    write!(out, "job {} ", job.number)?;
    put_quoted(out, job.document.name.as_bytes())?;
    write!(
        out,
        " of {} phases, created {}",
        job.document.phases.len(),
        job.created
    )?;
    write!(
        out,
        ", ended {}, cancelled {}, done {:?}",
        job.ended, job.cancelled, job.done
    )?;
    put_assets(out, job.assets.as_slice())?;
    put_counts(out, job)
}

fn put_item(out: &mut String, item: &Item<Body>) -> Result<(), AllocError> {
    put_path(out, &item.name)?;
    out.push_str(", root ")?;
    put_quoted(out, item.root.as_bytes())?;
    write!(out, ", reducer {:?}", item.reducer)?;
    put_body(out, &item.body)
}

fn put_line(out: &mut String, line: &InputLine) -> Result<(), AllocError> {
    match line {
        InputLine::Named(path) => {
            out.push_str("named ")?;
            put_path(out, path)
        }
        InputLine::Other(text) => {
            out.push_str("other ")?;
            put_quoted(out, text.as_bytes())
        }
    }
}

fn put_outcome(out: &mut String, outcome: &Outcome<Body>) -> Result<(), AllocError> {
    match outcome {
        Outcome::Good(items) => {
            for item in items.as_slice() {
                out.push_str("; ")?;
                put_item(out, item)?;
            }
            Ok(())
        }
        Outcome::Bad {
            failure,
            status,
            stderr,
        } => {
            write!(out, ", {failure:?}, status {status}, stderr ")?;
            put_quoted(out, stderr.as_slice())
        }
    }
}

fn put_entry(out: &mut String, entry: &TraceEntry<Body>) -> Result<(), AllocError> {
    write!(
        out,
        "entry of phase {}, place {}, position {}",
        entry.phase, entry.place, entry.position
    )?;
    put_outcome(out, &entry.outcome)
}

fn put_upload(out: &mut String, upload: &UploadRecord) -> Result<(), AllocError> {
    write!(out, "upload {} to ", upload.number)?;
    put_path(out, &upload.path)?;
    out.push_str(", type ")?;
    put_quoted(out, upload.content_type.as_bytes())?;
    write!(
        out,
        ", moment {}, {:?}, parts {}",
        upload.moment, upload.stage, upload.parts
    )
}

fn put_part(out: &mut String, part: &PartRow<Body>) -> Result<(), AllocError> {
    write!(out, "part {}, number {}", part.index, part.number)?;
    put_body(out, &part.body)
}

/// Appends a record as text.
pub fn show(record: &SnapshotRecord<Body>, out: &mut String) -> Result<(), AllocError> {
    match record {
        SnapshotRecord::Begin {
            count,
            rows,
            jobs,
            uploads,
        } => write!(
            out,
            "begin at {count}, rows {rows}, jobs {jobs}, uploads {uploads}"
        ),
        SnapshotRecord::Row(row) => put_row(out, row),
        SnapshotRecord::Job(job) => put_job(out, job),
        SnapshotRecord::Input(item) => {
            out.push_str("input ")?;
            put_item(out, item)
        }
        SnapshotRecord::Missing(line) => {
            out.push_str("missing ")?;
            put_line(out, line)
        }
        SnapshotRecord::Entry(entry) => put_entry(out, entry),
        SnapshotRecord::Upload(upload) => put_upload(out, upload),
        SnapshotRecord::Part(part) => put_part(out, part),
        SnapshotRecord::End => out.push_str("end"),
    }
}
