//! The rows that ask an account.
use crate::account::Account;
use crate::many;
use crate::orders::{put_order, put_size};
use crate::words::{path_at, task_at, tasks};
use mt_jobs::{JobStand, Jobs};
use mt_rows::{Row, Stop, put_escaped};
use mt_types::{Body, Entry, Item, Job, Outcome, Path, Sequence, Task, TraceEntry};
use std::alloc::{AllocError, Global};

/// So many items are shown at most.
const MOST_ITEMS: usize = 1_000;

fn put_path(alloc: Global, path: &Path, out: &mut String) -> Result<(), Stop> {
    put_escaped(out, path.print(alloc, "l")?.as_bytes())?;
    Ok(())
}

// What stands at a path.
fn put_entry(found: Option<&Entry<Body>>, out: &mut String) -> Result<(), Stop> {
    match found {
        Some(Entry::Directory { mtime }) => write!(out, "directory {mtime}")?,
        Some(Entry::Object(object)) => {
            write!(
                out,
                "object {} {} {} ",
                object.number, object.body.len, object.mtime
            )?;
            put_escaped(out, object.content_type.as_bytes())?;
        }
        None => out.push_str("none")?,
    }
    Ok(())
}

/// `at PATH`
pub fn put_at(alloc: Global, account: &Account, row: &Row, out: &mut String) -> Result<(), Stop> {
    let path = path_at(alloc, row, 1)?;
    put_entry(account.tree().get(&path), out)
}

fn put_task(task: Option<Task>, out: &mut String) -> Result<(), AllocError> {
    match task {
        Some(task) => write!(out, "{} {} {}", task.job, task.phase, task.place),
        None => out.push('-'),
    }
}

// The first ready task but for those of the row, and the first job that waits to be finished.
fn put_ready(alloc: Global, jobs: &Jobs<Body>, row: &Row, out: &mut String) -> Result<(), Stop> {
    let skip = tasks(alloc, row)?;
    put_task(jobs.next_ready(&skip), out)?;
    match jobs.waits_finish() {
        Some(job) => Ok(write!(out, ", {job} waits")?),
        None => Ok(()),
    }
}

fn put_item(alloc: Global, item: &Item<Body>, out: &mut String) -> Result<(), Stop> {
    put_path(alloc, &item.name, out)?;
    out.push_str(" root ")?;
    put_escaped(out, item.root.as_bytes())?;
    write!(out, " body {}", item.body.len)?;
    if let Some(reducer) = item.reducer {
        write!(out, " reducer {reducer}")?;
    }
    Ok(())
}

// The item at the place of a task.
fn put_one(alloc: Global, jobs: &Jobs<Body>, row: &Row, out: &mut String) -> Result<(), Stop> {
    let task = task_at(row, 1)?;
    match jobs.item(&task) {
        Some(item) => put_item(alloc, item, out),
        None => Ok(out.push_str("none")?),
    }
}

// The items that a ready task reads.
fn put_all(alloc: Global, jobs: &Jobs<Body>, task: &Task, out: &mut String) -> Result<(), Stop> {
    if !jobs.is_ready(task) {
        return Ok(out.push_str("not ready")?);
    }
    for k in 0..MOST_ITEMS {
        match jobs.read(task, k) {
            Some(item) => {
                if k > 0 {
                    out.push_str(", ")?;
                }
                put_item(alloc, item, out)?;
            }
            None => {
                if k == 0 {
                    out.push_str("nothing")?;
                }
                return Ok(());
            }
        }
    }
    Err(Stop::NoSuchRow)
}

fn has_phase(jobs: &Jobs<Body>, task: &Task) -> bool {
    match jobs.get(task.job) {
        Some(job) => (task.phase as usize) < job.document.phases.len(),
        None => false,
    }
}

fn put_read(alloc: Global, jobs: &Jobs<Body>, row: &Row, out: &mut String) -> Result<(), Stop> {
    let task = task_at(row, 1)?;
    if !has_phase(jobs, &task) {
        return Ok(out.push_str("none")?);
    }
    put_all(alloc, jobs, &task, out)
}

// How a job stands.
fn put_stand(job: &Job<Body>, out: &mut String) -> Result<(), Stop> {
    match job.done {
        None => out.push_str("running")?,
        Some(moment) if job.cancelled => write!(out, "cancelled at {moment}")?,
        Some(moment) => write!(out, "finished at {moment}")?,
    }
    Ok(())
}

fn put_inputs(job: &Job<Body>, out: &mut String) -> Result<(), Stop> {
    write!(out, ", inputs {}", job.inputs.len())?;
    if job.ended {
        out.push_str(" ended")?;
    }
    write!(out, ", missing {}, assets", job.missing.len())?;
    Ok(())
}

fn put_bodies(bodies: &Sequence<Body>, out: &mut String) -> Result<(), Stop> {
    out.push_str(" |")?;
    for body in bodies.as_slice() {
        write!(out, " {}", body.len)?;
    }
    Ok(())
}

fn put_trace_entry(entry: &TraceEntry<Body>, out: &mut String) -> Result<(), Stop> {
    write!(
        out,
        "\n    {} {} at {}: ",
        entry.phase, entry.place, entry.position
    )?;
    match &entry.outcome {
        Outcome::Good(items) => write!(out, "outputs {}", items.len())?,
        Outcome::Bad {
            failure,
            status,
            ..
        } => write!(out, "{failure:?} {status}")?,
    }
    Ok(())
}

fn put_job(job: &Job<Body>, out: &mut String) -> Result<(), Stop> {
    put_stand(job, out)?;
    put_inputs(job, out)?;
    for bodies in job.assets.as_slice() {
        put_bodies(bodies, out)?;
    }
    for entry in job.trace.as_slice() {
        put_trace_entry(entry, out)?;
    }
    Ok(())
}

// The job of a number.
fn put_found(jobs: &Jobs<Body>, row: &Row, out: &mut String) -> Result<(), Stop> {
    match jobs.get(row.number(1)?) {
        Some(job) => put_job(job, out),
        None => Ok(out.push_str("none")?),
    }
}

fn put_numbers(jobs: &[&Job<Body>], out: &mut String) -> Result<(), AllocError> {
    for job in jobs {
        write!(out, " {}", job.number)?;
    }
    Ok(())
}

// `page running|done FROM LIMIT`
fn put_page(alloc: Global, jobs: &Jobs<Body>, row: &Row, out: &mut String) -> Result<(), Stop> {
    let stand = match row.text(1)? {
        "running" => JobStand::Running,
        _ => JobStand::Done,
    };
    let limit = row.number(3)?.min(MOST_ITEMS as u64) as usize;
    let from = row.number(2)?;
    write!(out, "of {}:", jobs.count(stand))?;
    let page = jobs.page(alloc, stand, from, limit)?;
    Ok(put_numbers(&page, out)?)
}

/// The answer to a row that asks jobs.
pub fn answer(alloc: Global, jobs: &Jobs<Body>, row: &Row, out: &mut String) -> Result<(), Stop> {
    match row.text(0)? {
        "job" => put_found(jobs, row, out),
        "ready" => put_ready(alloc, jobs, row, out),
        "item" => put_one(alloc, jobs, row, out),
        "read" => put_read(alloc, jobs, row, out),
        "size" => put_size(jobs, row, out),
        "order" => put_order(alloc, jobs, row, out),
        "page" => put_page(alloc, jobs, row, out),
        "looked" => many::look(jobs, row, out),
        _ => many::ask(alloc, jobs, row, out),
    }
}
