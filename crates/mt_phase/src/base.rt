//! What the names of a task's outputs begin with.
ghost use Rattle.std.specs.Prelude.{◌≡◌, ◌<◌, ◌∷◌, ◌++◌, ◌^◌, IfOk};
ghost use Rattle.mt_path.specs.AccountPath.{path_text, slash};
ghost use Rattle.mt_model.specs.Names.{job_stor, output_prefix};

use itoa::Buffer;
use mt_base::{Text, ascii};
use mt_ident::uuid_text;
use std::alloc::{AllocError, Global};

/// The name that outputs without a place begin with, as `/me/jobs/ID/stor/log.0.`.
pub(crate) fn base(
    alloc: Global,
    login: &str,
    job: u64,
    root: &str,
    phase: u32,
) -> Result<Text, AllocError>
    requires { job < 2 ^ 62 }
    ensures { IfOk result (λ t. t ≡ path_text login.now (job_stor job) ++ slash ∷ output_prefix root.now phase) }
{
    let id = uuid_text(2, job);
    let mut number = Buffer::new();
    let mut text = String::from_str(alloc, "/")?;
    text.push_str(login)?;
    text.push_str("/jobs/")?;
    text.push_str(ascii(&id))?;
    text.push_str("/stor/")?;
    text.push_str(root)?;
    text.push_str(".")?;
    text.push_str(number.format(phase))?;
    text.push_str(".")?;
    Ok(Text::from_string(text))
}
