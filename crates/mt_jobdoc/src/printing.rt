//! The phases of a document, as they are shown.
ghost use Rattle.std.specs.Prelude.{◌≡◌, IfOk, map};
ghost use Rattle.serde_json.specs.View.{view};
ghost use Rattle.serde_json.specs.Data.{string};
ghost use Rattle.mt_path.specs.AccountPath.{path_text};
ghost use Rattle.serde_json.specs.Written.{compact_text};
ghost use Rattle.mt_jobdoc.specs.Printed.{assets_data, phase_data, phases_data};

use mt_base::Text;
use mt_path::Path;
use mt_types::{JobDocument, Phase, PhaseKind};
use serde_json::{Value, json};
use std::alloc::{AllocError, Global};

/// The phases of a document as a JSON value.
pub fn phases_value(alloc: Global, login: &str, document: &JobDocument) -> Result<Value, AllocError>
    ensures { IfOk result (λ v. view v ≡ phases_data login.now document.now) }
{
    Ok(Value::Array(values(alloc, login, document.phases.as_slice())?))
}

/// The phases of a document as text: compact JSON, its keys in the order of their bytes.
pub fn print(alloc: Global, document: &JobDocument, login: &str) -> Result<Text, AllocError>
    ensures { IfOk result (λ t. t ≡ compact_text (phases_data login.now document.now)) }
{
    let value = phases_value(alloc, login, document)?;
    Ok(Text::from_string(value.to_string(alloc)?))
}

// Each phase as a value.
fn values(alloc: Global, login: &str, phases: &[Phase]) -> Result<Vec<Value>, AllocError>
    ensures { IfOk result (λ vs. map view vs.items ≡ map (phase_data login.now) phases.now) }
{
    let mut out = Vec::new(alloc);
    for phase in phases {
        out.push(phase_value(alloc, login, phase)?)?;
    }
    Ok(out)
}

// A phase as a value.
#[tactic(auto, unfolding(crate::specs::Printed::phase_data))]
fn phase_value(alloc: Global, login: &str, phase: &Phase) -> Result<Value, AllocError>
    ensures { IfOk result (λ v. view v ≡ phase_data login.now phase.now) }
{
    let assets = assets_value(alloc, login, phase.assets.as_slice())?;
    let exec = phase.exec.as_str();
    match (phase.kind, &phase.init) {
        (PhaseKind::Map, None) => {
            json!(in alloc; {"assets": assets, "exec": exec, "type": "map"})
        }
        (PhaseKind::Map, Some(init)) => {
            json!(in alloc; {"assets": assets, "exec": exec, "init": init.as_str(), "type": "map"})
        }
        (PhaseKind::Reduce { count }, None) => {
            json!(in alloc; {"assets": assets, "count": count, "exec": exec, "type": "reduce"})
        }
        (PhaseKind::Reduce { count }, Some(init)) => {
            json!(in alloc; {"assets": assets, "count": count, "exec": exec, "init": init.as_str(), "type": "reduce"})
        }
    }
}

// The names of assets as a value.
fn assets_value(alloc: Global, login: &str, assets: &[Path]) -> Result<Value, AllocError>
    ensures { IfOk result (λ v. view v ≡ assets_data login.now assets.now) }
{
    Ok(Value::Array(names(alloc, login, assets)?))
}

// The name of each asset as a value.
fn names(alloc: Global, login: &str, assets: &[Path]) -> Result<Vec<Value>, AllocError>
    ensures { IfOk result (λ vs. map view vs.items ≡ map (λ p. string (path_text login.now p)) assets.now) }
{
    let mut out = Vec::new(alloc);
    for asset in assets {
        let name = asset.print(alloc, login)?;
        out.push(Value::try_from_str(alloc, name.as_str())?)?;
    }
    Ok(out)
}
