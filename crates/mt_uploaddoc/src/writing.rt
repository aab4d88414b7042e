//! How an upload stands.
ghost use Rattle.std.specs.Prelude.{◌≡◌, ◌<◌, ◌^◌, IfOk};
ghost use Rattle.serde_json.specs.View.{view};
ghost use Rattle.mt_uploaddoc.specs.States as words;
ghost use Rattle.mt_uploaddoc.specs.States.{stage_word, state_data};

use mt_base::{Bytes, ascii};
use mt_ident::uuid_text;
use mt_types::{Stage, Upload};
use serde_json::{Value, json};
use std::alloc::{AllocError, Global};

/// The kind of the identifiers of uploads.
const UPLOAD: u8 = 4;

// The word for a stage.
fn stage_word(stage: Stage) -> &'static str
    ensures { result.now ≡ stage_word stage }
{
    match stage {
        Stage::Open => "open",
        Stage::Committed => "committed",
        Stage::Aborted => "aborted",
    }
}

// How an upload stands as a value.
#[tactic(auto, unfolding(crate::specs::States::state_data))]
fn state_value<B>(alloc: Global, login: &str, upload: &Upload<B>) -> Result<Value, AllocError>
    requires { upload.now.number < 2 ^ 62 }
    ensures { IfOk result (λ v. view v ≡ state_data login.now upload.now) }
{
    let id = uuid_text(UPLOAD, upload.number);
    let path = upload.path.print(alloc, login)?;
    let parts = upload.parts.len();
    let state = stage_word(upload.stage);
    json!(in alloc; {"id": ascii(&id), "objectPath": path.as_str(), "parts": parts, "state": state})
}

/// How an upload stands, as compact JSON (RFC 8259), its keys in the order of their bytes:
/// `{"id":..,"objectPath":..,"parts":..,"state":..}`, without a line feed. `parts` is how many parts stand, 0 once the upload is no
/// longer open; `state` is `open`, `committed` or `aborted`. The answer is an error for want of memory alone.
pub fn state_text<B>(alloc: Global, login: &str, upload: &Upload<B>) -> Result<Bytes, AllocError>
    requires { upload.now.number < 2 ^ 62 }
    ensures exact { IfOk result (λ text. text ≡ words.state_text login.now upload.now) }
{
    let value = state_value(alloc, login, upload)?;
    Ok(Bytes::from_vec(value.to_string(alloc)?.into_bytes()))
}
