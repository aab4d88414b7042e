//! Heads read into what they ask for: `NAME .. LOGIN METHOD TARGET FIELD ..`, a field as it stands in a head.
use crate::replying;
use mt_edge::MemSource;
use mt_error::{More, Refused};
use mt_http::{Head, read_head};
use mt_ident::md5_of;
use mt_path::Path;
use mt_request::{Asked, Doing, JobDoing, Page, Request, Wish, asked_of};
use mt_rows::{Row, Stop, put_escaped};
use mt_types::Field;
use std::alloc::{AllocError, Global};

/// Answers a row of this module, or else of the next.
pub fn answer(alloc: Global, row: &Row, out: &mut String) -> Result<(), Stop> {
    match row.text(0)? {
        "ask" => put_asked(alloc, row, out),
        "refusal" => put_refused_body(alloc, row, out),
        "refusal-before-its-body" => put_refused_head(alloc, row, out),
        _ => replying::answer(alloc, row, out),
    }
}

fn put_asked(alloc: Global, row: &Row, out: &mut String) -> Result<(), Stop> {
    match asked_at(alloc, row, 1)? {
        Asked::Rows(request) => put_request(alloc, row.text(1)?, &request, out),
        Asked::Jobs(request) => {
            put_wish(&request.wish, out)?;
            put_job_doing(&request.doing, out)
        }
    }
}

fn put_refused_body(alloc: Global, row: &Row, out: &mut String) -> Result<(), Stop> {
    let digest = md5_of(row.bytes(1)?);
    let asked = asked_at(alloc, row, 2)?;
    put_refusal(asked.refusal(Some(&digest)), out)
}

fn put_refused_head(alloc: Global, row: &Row, out: &mut String) -> Result<(), Stop> {
    let asked = asked_at(alloc, row, 1)?;
    put_refusal(asked.refusal(None), out)
}

// What is asked for by the login, the method, the target and the fields that stand from a place on.
fn asked_at(alloc: Global, row: &Row, place: usize) -> Result<Asked, Stop> {
    let head = head_at(alloc, row, place.saturating_add(1))?;
    Ok(asked_of(alloc, row.text(place)?, &head)?)
}

fn put_pieces(bytes: &mut Vec<u8>, pieces: &[&[u8]]) -> Result<(), AllocError> {
    for piece in pieces {
        bytes.extend_from_slice(piece)?;
    }
    Ok(())
}

// The head of the method, the target and the fields that stand from a place on.
fn head_at(alloc: Global, row: &Row, place: usize) -> Result<Head, Stop> {
    let (method, target) = (row.bytes(place)?, row.bytes(place.saturating_add(1))?);
    let mut bytes = Vec::new(alloc);
    put_pieces(&mut bytes, &[method, b" ", target, b" HTTP/1.1\r\n"])?;
    for field in place.saturating_add(2)..row.len() {
        put_pieces(&mut bytes, &[row.bytes(field)?, b"\r\n"])?;
    }
    bytes.extend_from_slice(b"\r\n")?;
    match read_head(alloc, &mut MemSource::new(alloc, bytes)) {
        Ok(head) => Ok(head),
        Err(_) => Err(Stop::NoSuchRow),
    }
}

// A refusal with what its reply says besides.
fn put_refused(refused: Refused, out: &mut String) -> Result<(), Stop> {
    let name = refused.code.name();
    match refused.more {
        More::Nothing => Ok(out.push_str(name)?),
        More::Allow(methods) => Ok(write!(out, "{name}, allow {}", methods.text())?),
        More::Size(size) => Ok(write!(out, "{name}, size {size}")?),
    }
}

fn put_refusal(refusal: Option<Refused>, out: &mut String) -> Result<(), Stop> {
    match refusal {
        Some(refused) => put_refused(refused, out),
        None => Ok(out.push_str("none")?),
    }
}

// What a request says, in the order in which it is judged.
fn put_request(
    alloc: Global,
    login: &str,
    request: &Request,
    out: &mut String,
) -> Result<(), Stop> {
    if let Some(refused) = request.early {
        out.push_str("early ")?;
        put_refused(refused, out)?;
        out.push_str("; ")?;
    }
    put_wish(&request.wish, out)?;
    if let Some(code) = request.late {
        write!(out, "late {}; ", code.name())?;
    }
    put_doing(alloc, login, &request.doing, out)
}

fn put_wish(wish: &Wish, out: &mut String) -> Result<(), Stop> {
    match wish {
        Wish::None => Ok(()),
        Wish::Unreadable => Ok(out.push_str("unreadable digest; ")?),
        Wish::Wants(digest) => {
            out.push_str("digest ")?;
            for byte in digest {
                write!(out, "{byte:02x}")?;
            }
            Ok(out.push_str("; ")?)
        }
    }
}

fn put_path(
    alloc: Global,
    login: &str,
    word: &str,
    path: &Path,
    out: &mut String,
) -> Result<(), Stop> {
    out.push_str(word)?;
    put_escaped(out, path.print(alloc, login)?.as_bytes())?;
    Ok(())
}

fn put_doing(alloc: Global, login: &str, doing: &Doing, out: &mut String) -> Result<(), Stop> {
    match doing {
        Doing::Nothing => Ok(out.push_str("nothing")?),
        Doing::PutObject {
            path,
            content_type,
            durability,
            metadata,
        } => {
            put_path(alloc, login, "object ", path, out)?;
            out.push_str(" type [")?;
            put_escaped(out, content_type.as_bytes())?;
            write!(out, "] level {durability:?}")?;
            put_fields(metadata.as_slice(), out)
        }
        Doing::PutDirectory { path } => put_path(alloc, login, "directory ", path, out),
        Doing::PutLink { path, source } => {
            put_path(alloc, login, "link ", path, out)?;
            put_path(alloc, login, " of ", source, out)
        }
        Doing::Remove { path } => put_path(alloc, login, "delete ", path, out),
        Doing::Look { path, page, range } => {
            put_path(alloc, login, "look ", path, out)?;
            put_page(page.as_ref(), out)?;
            if let Some(range) = range {
                write!(out, ", {range:?}")?;
            }
            Ok(())
        }
    }
}

fn put_job(word: &str, job: Option<u64>, out: &mut String) -> Result<(), Stop> {
    out.push_str(word)?;
    match job {
        Some(number) => Ok(write!(out, " {number}")?),
        None => Ok(out.push_str(" no job")?),
    }
}

fn put_job_doing(doing: &JobDoing, out: &mut String) -> Result<(), Stop> {
    match doing {
        JobDoing::ListJobs { stand, page } => {
            write!(out, "list {stand:?}")?;
            put_page(page.as_ref(), out)
        }
        JobDoing::MakeJob => Ok(out.push_str("make a job")?),
        JobDoing::PostLines { job } => put_job("add lines to", *job, out),
        JobDoing::EndInput { job } => put_job("end the input of", *job, out),
        JobDoing::CancelJob { job } => put_job("cancel", *job, out),
        JobDoing::LookLive { job, text } => {
            write!(out, "look {text:?} of")?;
            put_job("", *job, out)
        }
    }
}

fn put_fields(fields: &[Field], out: &mut String) -> Result<(), Stop> {
    for field in fields {
        out.push_str(", ")?;
        put_escaped(out, field.name.as_bytes())?;
        out.push_str(": ")?;
        put_escaped(out, field.value.as_slice())?;
    }
    Ok(())
}

fn put_page(page: Option<&Page>, out: &mut String) -> Result<(), Stop> {
    match page {
        None => Ok(out.push_str(", no page")?),
        Some(page) => {
            write!(out, ", limit {}", page.limit)?;
            if !page.marker.as_slice().is_empty() {
                out.push_str(", marker ")?;
                put_escaped(out, page.marker.as_slice())?;
            }
            Ok(())
        }
    }
}
