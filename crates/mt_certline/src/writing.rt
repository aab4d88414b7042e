//! A line is written.
ghost use Rattle.std.specs.Prelude.{◌≡◌, ◌<◌, ◌^◌, IfOk, map, unwrap_or, []};
ghost use Rattle.serde_json.specs.View.{view};
ghost use Rattle.serde_json.specs.Written.{compact_text};
ghost use Rattle.serde_json.specs.Data.{string};
ghost use Rattle.mt_path.specs.AccountPath.{path_text};
ghost use Rattle.mt_jobdoc.specs.Printed as printed;
ghost use Rattle.mt_certline.specs.Written as words;
ghost use Rattle.mt_certline.specs.Written.{IsShowable, begin_data, item_data, items_data, line_data, nameless, reducer_data, task_data, whole, wholes_data};

use crate::line::{Line, Listed, Sum};
use mt_base::{Duplicate, Text, ascii};
use mt_ident::{md5_text, uuid_text};
use mt_jobdoc::phases_value;
use mt_path::Path;
use mt_types::{Item, JobDocument, Phases};
use serde_json::{Value, json};
use std::alloc::{AllocError, Global};

/// The version of the form of certificates.
const VERSION: u64 = 1;

/// The kind of the identifiers of jobs.
const JOB: u8 = 2;

// A path as a value.
fn path_value(alloc: Global, login: &str, path: &Path) -> Result<Value, AllocError>
    ensures { IfOk result (λ v. view v ≡ string (path_text login.now path.now)) }
{
    let name = path.print(alloc, login)?;
    Value::try_from_str(alloc, name.as_str())
}

// A reducer as a value.
fn reducer_value(reducer: Option<u32>) -> Value
    ensures { view result ≡ reducer_data reducer }
{
    match reducer {
        Some(number) => Value::from(number),
        None => Value::Null,
    }
}

// An item as a value.
#[tactic(auto, unfolding(crate::specs::Written::item_data))]
fn item_value(alloc: Global, login: &str, item: &Item<Sum>) -> Result<Value, AllocError>
    ensures { IfOk result (λ v. view v ≡ item_data login.now item.now) }
{
    let digest = md5_text(&item.body.md5);
    let name = path_value(alloc, login, &item.name)?;
    let reducer = reducer_value(item.reducer);
    let root = item.root.as_str();
    json!(in alloc; {"md5": ascii(&digest), "name": name, "reducer": reducer, "root": root, "size": item.body.size})
}

// Items as values.
fn item_values(alloc: Global, login: &str, items: &[Item<Sum>]) -> Result<Vec<Value>, AllocError>
    ensures { IfOk result (λ vs. map view vs.items ≡ map (item_data login.now) items.now) }
{
    let mut out = Vec::new(alloc);
    for item in items {
        out.push(item_value(alloc, login, item)?)?;
    }
    Ok(out)
}

// Numbers as values.
fn whole_values(alloc: Global, numbers: &[u64]) -> Result<Vec<Value>, AllocError>
    ensures { IfOk result (λ vs. map view vs.items ≡ map whole numbers.now) }
{
    let mut out = Vec::new(alloc);
    for number in numbers {
        out.push(Value::from(*number))?;
    }
    Ok(out)
}

// The outputs of a task as a value.
fn outputs_value(alloc: Global, login: &str, task: &Listed) -> Result<Value, AllocError>
    ensures { IfOk result (λ v. view v ≡ items_data login.now (unwrap_or task.now.outputs [])) }
{
    match &task.outputs {
        Some(items) => Ok(Value::Array(item_values(alloc, login, items.as_slice())?)),
        None => Ok(Value::Array(Vec::new(alloc))),
    }
}

// The places that a task read as a value.
fn reads_value(alloc: Global, reads: &[u64]) -> Result<Value, AllocError>
    ensures { IfOk result (λ v. view v ≡ wholes_data reads.now) }
{
    Ok(Value::Array(whole_values(alloc, reads)?))
}

// The word for whether a task failed.
fn state_name(task: &Listed) -> &'static str
    ensures { result.now ≡ words.state_name task.now.outputs }
{
    match &task.outputs {
        Some(_) => "ok",
        None => "failed",
    }
}

// A committed task as a value.
#[tactic(auto, unfolding(crate::specs::Written::task_data))]
fn task_value(alloc: Global, login: &str, task: &Listed) -> Result<Value, AllocError>
    ensures { IfOk result (λ v. view v ≡ task_data login.now task.now) }
{
    let items = outputs_value(alloc, login, task)?;
    let reads = reads_value(alloc, task.reads.as_slice())?;
    json!(in alloc; {"items": items, "phase": task.phase, "place": task.place, "position": task.position, "reads": reads, "state": state_name(task)})
}

// Phases as a value.
fn printed_phases(alloc: Global, login: &str, phases: &Phases) -> Result<Value, AllocError>
    ensures { IfOk result (λ v. view v ≡ printed.phases_data login.now (nameless phases.now)) }
{
    let document = JobDocument {
        name: Text::from_str(alloc, "")?,
        phases: phases.copy(alloc)?,
    };
    phases_value(alloc, login, &document)
}

// The first line as a value.
#[tactic(auto, unfolding(crate::specs::Written::begin_data))]
fn begin_value(
    alloc: Global,
    login: &str,
    number: u64,
    phases: &Phases,
) -> Result<Value, AllocError>
    requires { number < 2 ^ 62 }
    ensures { IfOk result (λ v. view v ≡ begin_data login.now number phases.now) }
{
    let id = uuid_text(JOB, number);
    let phases = printed_phases(alloc, login, phases)?;
    json!(in alloc; {"certificate": VERSION, "id": ascii(&id), "phases": phases})
}

// A line as a value.
#[tactic(auto, unfolding(crate::specs::Written::line_data))]
fn line_value(alloc: Global, login: &str, line: &Line) -> Result<Value, AllocError>
    requires { IsShowable line.now }
    ensures { IfOk result (λ v. view v ≡ line_data login.now line.now) }
{
    match line {
        Line::Begin { number, phases } => begin_value(alloc, login, *number, phases),
        Line::Input(item) => {
            let item = item_value(alloc, login, item)?;
            json!(in alloc; {"input": item})
        }
        Line::Task(task) => task_value(alloc, login, task),
        Line::Output(path) => {
            let name = path_value(alloc, login, path)?;
            json!(in alloc; {"output": name})
        }
        Line::End => json!(in alloc; {"end": true}),
    }
}

/// A line as text, compact JSON without its line feed.
pub fn line_text(alloc: Global, login: &str, line: &Line) -> Result<Text, AllocError>
    requires { IsShowable line.now }
    ensures { IfOk result (λ t. t ≡ compact_text (line_data login.now line.now)) }
{
    let value = line_value(alloc, login, line)?;
    Ok(Text::from_string(value.to_string(alloc)?))
}
