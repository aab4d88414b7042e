//! The order of a ready task, by its parts.
ghost use Rattle.std.specs.Prelude.{◌≡◌, true, IfSome};
ghost use Rattle.mt_model.specs.State.{job_at};
ghost use Rattle.mt_model.specs.Tasks.{is_ready};

use crate::words::task_at;
use mt_base::{NUMBERS_END, Text};
use mt_jobs::Jobs;
use mt_phase::order_of;
use mt_rows::{Row, Stop, put_escaped};
use mt_spawn::Order;
use mt_types::{Body, Task};
use std::alloc::{AllocError, Global};

fn put(out: &mut String, name: &str, bytes: &[u8]) -> Result<(), AllocError> {
    out.push_str(name)?;
    put_escaped(out, bytes)
}

// A text, or a dash where there is none.
fn put_some(out: &mut String, name: &str, text: Option<&Text>) -> Result<(), AllocError> {
    match text {
        Some(text) => put(out, name, text.as_bytes()),
        None => put(out, name, b"-"),
    }
}

fn put_assets(order: &Order, out: &mut String) -> Result<(), AllocError> {
    for asset in order.assets.as_slice() {
        put(out, ", asset ", asset.name.as_bytes())?;
        write!(out, " {}", asset.len)?;
    }
    Ok(())
}

fn put_reducer(order: &Order, out: &mut String) -> Result<(), AllocError> {
    if let Some(reducer) = order.reducer {
        write!(out, ", reducer {reducer}")?;
    }
    write!(out, ", reads {}", order.input)
}

fn put_parts(order: &Order, out: &mut String) -> Result<(), AllocError> {
    write!(out, "{} {} ", order.job, order.phase)?;
    put(out, "exec ", order.exec.as_bytes())?;
    put_some(out, ", init ", order.init.as_ref())?;
    put(out, ", base ", order.base.as_bytes())?;
    put_some(out, ", object ", order.object.as_ref())?;
    put_reducer(order, out)?;
    put_assets(order, out)
}

// The order of a task that is ready.
fn put_ready(alloc: Global, jobs: &Jobs<Body>, task: Task, out: &mut String) -> Result<(), Stop>
    requires { IfSome (job_at jobs.now task.job) (λ j. is_ready j task.phase task.place ≡ true) }
{
    let input = jobs.input_len(&task)?;
    match jobs.get(task.job) {
        Some(job) if job.number < NUMBERS_END => {
            let order = order_of(alloc, "l", job, task, jobs.item(&task), input)?;
            Ok(put_parts(&order, out)?)
        }
        _ => Err(Stop::NoSuchRow),
    }
}

/// `order JOB PHASE PLACE`
pub fn put_order(
    alloc: Global,
    jobs: &Jobs<Body>,
    row: &Row,
    out: &mut String,
) -> Result<(), Stop> {
    let task = task_at(row, 1)?;
    if jobs.is_ready(&task) {
        put_ready(alloc, jobs, task, out)
    } else {
        Ok(out.push_str("not ready")?)
    }
}

fn put_len(len: Result<u64, AllocError>, out: &mut String) -> Result<(), AllocError> {
    match len {
        Ok(len) => write!(out, "{len} bytes"),
        Err(AllocError) => out.push_str("too many bytes"),
    }
}

/// `size JOB PHASE PLACE`: the number of items that a ready task reads, and their bytes.
pub fn put_size(jobs: &Jobs<Body>, row: &Row, out: &mut String) -> Result<(), Stop> {
    let task = task_at(row, 1)?;
    if !jobs.is_ready(&task) {
        return Ok(out.push_str("not ready")?);
    }
    write!(out, "{} items, ", jobs.read_count(&task))?;
    Ok(put_len(jobs.input_len(&task), out)?)
}
