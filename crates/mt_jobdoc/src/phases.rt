//! The phases of a document.
ghost use Rattle.std.specs.Prelude.{◌≡◌, map};
ghost use Rattle.serde_json.specs.View.{view};
ghost use Rattle.mt_jobdoc.specs.Document.{phase_of, phases_of, IsUnlessMemory};

use crate::error::InvalidJob;
use crate::fields::{assets, exec, init, kind, reduces};
use mt_base::Sequence;
use mt_types::{Phase, Phases};
use serde_json::Value;
use std::alloc::Global;

// The phase of the number `k`.
fn phase(alloc: Global, login: &str, k: u64, value: &Value) -> Result<Phase, InvalidJob>
    ensures { IsUnlessMemory (phase_of login.now k (view value.now)) result }
{
    let Some(reduces) = reduces(value) else {
        return Err(InvalidJob::BadPhase(k));
    };
    let Some(exec) = exec(alloc, value)? else {
        return Err(InvalidJob::BadPhase(k));
    };
    let Some(init) = init(alloc, value)? else {
        return Err(InvalidJob::BadPhase(k));
    };
    let Some(assets) = assets(alloc, login, value)? else {
        return Err(InvalidJob::BadPhase(k));
    };
    match kind(k, reduces, value) {
        Ok(kind) => Ok(Phase {
            kind,
            exec,
            init,
            assets,
        }),
        Err(e) => Err(e),
    }
}

/// The phases of a document, or the first fault.
pub fn phases(alloc: Global, login: &str, values: &[Value]) -> Result<Phases, InvalidJob>
    ensures { IsUnlessMemory (phases_of login.now 0 (map view values.now)) result }
{
    let mut phases = Vec::new(alloc);
    for (k, value) in values.iter().enumerate() {
        match phase(alloc, login, k as u64, value) {
            Ok(phase) => phases.push(phase)?,
            Err(e) => return Err(e),
        }
    }
    Ok(Sequence::from_vec(phases))
}
