//! The paths in the area of jobs.
ghost use Rattle.std.specs.Prelude.{◌≡◌, ◌<◌, ◌^◌, ◌++◌, ◌∷◌, [], codes, IfOk};
ghost use Rattle.mt_ident.specs.Identifiers.{identifier_text};
ghost use Rattle.mt_path.specs.Keys.{key_bytes};
ghost use Rattle.mt_model.specs.Names.{anonymous_place, in_job_folder, job_folder, job_name, job_stor, output_prefix};
ghost use Rattle.mt_resolve.specs.Committing.{IsFolderName};

use crate::committing::Committing;
use mt_bytes::put_decimal;
use mt_ident::uuid_text;
use mt_types::{Area, Bytes, Path};
use std::alloc::{AllocError, Global};

/// The kind of the identifiers of jobs.
const JOB: u8 = 2;

/// The kind of the identifiers of outputs.
const OUTPUT: u8 = 3;

/// How many bytes a key of an output has at most beside its root: two identifiers, `stor`, the number of a phase, and what stands between
/// them.
const BESIDE_ROOT: usize = 36 + 1 + 36 + 6 + 1 + 10 + 1;

// A job's name.
fn name_of_job(alloc: Global, job: u64) -> Result<Bytes, AllocError>
    requires { job < 2 ^ 62 }
    ensures { IfOk result (λ b. b ≡ job_name job) }
{
    Bytes::from_slice(alloc, &uuid_text(JOB, job))
}

/// The folder of a job.
pub fn job_folder(alloc: Global, job: u64) -> Result<Path, AllocError>
    requires { job < 2 ^ 62 }
    ensures { IfOk result (λ p. p ≡ job_folder job) }
{
    let id = name_of_job(alloc, job)?;
    Path::from_parts(alloc, Area::Jobs, &[id])
}

/// A name in the folder of a job: `stor`, or one of an archive.
pub fn in_job_folder(alloc: Global, job: u64, name: &str) -> Result<Path, AllocError>
    requires job { job < 2 ^ 62 }
    requires name { IsFolderName name.now }
    ensures { IfOk result (λ p. p ≡ in_job_folder job name.now) }
{
    let id = name_of_job(alloc, job)?;
    let name = Bytes::from_slice(alloc, name.as_bytes())?;
    Path::from_parts(alloc, Area::Jobs, &[id, name])
}

/// The folder of what the tasks of a job make.
pub fn job_stor(alloc: Global, job: u64) -> Result<Path, AllocError>
    requires { job < 2 ^ 62 }
    ensures { IfOk result (λ p. p ≡ job_stor job) }
{
    in_job_folder(alloc, job, "stor")
}

// The key of the path of an output without a place, spelled at once, with room for all of it from the start.
fn output_key(
    alloc: Global,
    job: u64,
    root: &[u8],
    phase: u32,
    number: u64,
) -> Result<Vec<u8>, AllocError>
    requires job { job < 2 ^ 62 }
    requires number { number < 2 ^ 62 }
    ensures { IfOk result (λ key. key.items ≡ key_bytes (job_name job ∷ codes "stor" ∷ (output_prefix root.now phase ++ identifier_text 3 number) ∷ [])) }
{
    let mut key = Vec::with_capacity(alloc, root.len().saturating_add(BESIDE_ROOT))?;
    key.extend_from_slice(b"\0")?;
    key.extend_from_slice(&uuid_text(JOB, job))?;
    key.extend_from_slice(b"\0stor\0")?;
    key.extend_from_slice(root)?;
    key.extend_from_slice(b".")?;
    put_decimal(&mut key, u64::from(phase))?;
    key.extend_from_slice(b".")?;
    key.extend_from_slice(&uuid_text(OUTPUT, number))?;
    Ok(key)
}

/// Where an output without a place stands.
pub fn anonymous_place(alloc: Global, c: &Committing, number: u64) -> Result<Path, AllocError>
    requires { number < 2 ^ 62 }
    ensures { IfOk result (λ p. p ≡ anonymous_place c.now.job c.now.root c.now.phase number) }
{
    let key = output_key(alloc, c.job, c.root.as_bytes(), c.phase, number)?;
    Ok(Path::from_key(Area::Jobs, key))
}
