//! Commands as text.
use crate::show::{Show, put};
use mt_types::{Body, Command};
use std::alloc::AllocError;

impl Show for Command<Body> {
    fn show(&self, out: &mut String) -> Result<(), AllocError> {
        match self {
            Command::Put {
                path,
                content_type,
                body,
                durability,
                metadata,
                moment,
            } => {
                put(out, "put", path)?;
                put(out, ", type", content_type)?;
                put(out, ", body", body)?;
                put(out, ", durability", durability)?;
                put(out, ", metadata", metadata)?;
                put(out, ", moment", moment)
            }
            Command::MakeDirectory { path, moment } => {
                put(out, "make directory", path)?;
                put(out, ", moment", moment)
            }
            Command::Link {
                path,
                source,
                moment,
            } => {
                put(out, "link", path)?;
                put(out, ", source", source)?;
                put(out, ", moment", moment)
            }
            Command::Delete { path, moment } => {
                put(out, "delete", path)?;
                put(out, ", moment", moment)
            }
            _ => show_of_job(self, out),
        }
    }
}

// A command of a job.
fn show_of_job(command: &Command<Body>, out: &mut String) -> Result<(), AllocError> {
    match command {
        Command::NewJob { document, moment } => {
            put(out, "new job", document)?;
            put(out, ", moment", moment)
        }
        Command::AddInputs { job, lines, moment } => {
            put(out, "add inputs to", job)?;
            put(out, ", lines", lines)?;
            put(out, ", moment", moment)
        }
        Command::EndInput { job, moment } => show_at_job("end input of", job, moment, out),
        Command::Commit {
            job,
            phase,
            place,
            fate,
            moment,
        } => {
            put(out, "commit of", job)?;
            put(out, ", phase", phase)?;
            put(out, ", place", place)?;
            put(out, ",", fate)?;
            put(out, ", moment", moment)
        }
        Command::Finish { job, moment } => show_at_job("finish", job, moment, out),
        Command::Cancel { job, moment } => show_at_job("cancel", job, moment, out),
        Command::Close {
            job,
            cancelled,
            archive,
            moment,
        } => {
            put(out, "close", job)?;
            put(out, ", cancelled", cancelled)?;
            put(out, ",", archive)?;
            put(out, ", moment", moment)
        }
        _ => show_of_upload(command, out),
    }
}

fn show_at_job(name: &str, job: &u64, moment: &u64, out: &mut String) -> Result<(), AllocError> {
    put(out, name, job)?;
    put(out, ", moment", moment)
}

// A command of an upload.
fn show_of_upload(command: &Command<Body>, out: &mut String) -> Result<(), AllocError> {
    match command {
        Command::NewUpload {
            path,
            content_type,
            moment,
        } => {
            put(out, "new upload", path)?;
            put(out, ", type", content_type)?;
            put(out, ", moment", moment)
        }
        Command::PutPart {
            upload,
            index,
            body,
            moment,
        } => {
            put(out, "put part of", upload)?;
            put(out, ", index", index)?;
            put(out, ", body", body)?;
            put(out, ", moment", moment)
        }
        Command::CommitUpload {
            upload,
            parts,
            body,
            moment,
        } => {
            put(out, "commit upload", upload)?;
            put(out, ", parts", parts)?;
            put(out, ", body", body)?;
            put(out, ", moment", moment)
        }
        Command::AbortUpload { upload, moment } => {
            show_at_job("abort upload", upload, moment, out)
        }
        _ => Ok(()),
    }
}
