//! The bytes of a record.
ghost use Rattle.std.specs.Prelude.{◌≡◌, ◌<◌, ◌≤◌, ◌+◌, ◌^◌, ◌++◌, ◌∷◌, length, OnOk};
ghost use Rattle.mt_log.specs.LogImage.{head_of, record_head, record_of};

use md5::{Digest, Md5};
use std::alloc::AllocError;

// The length and the MD5 of a payload.
fn head_bytes(payload: &[u8]) -> [u8; 20]
    requires { length payload.now < 2 ^ 32 }
    ensures { result ≡ head_of payload.now }
{
    let mut head = [0; 20];
    let sum: [u8; 16] = Md5::digest(payload);
    head[..4].copy_from_slice(&(payload.len() as u32).to_be_bytes());
    head[4..].copy_from_slice(&sum);
    head
}

// An open gate, and the length and the MD5 of a payload.
fn open_head(payload: &[u8]) -> [u8; 21]
    requires { length payload.now < 2 ^ 32 }
    ensures { result ≡ 1 ∷ head_of payload.now }
{
    let mut head = [1; 21];
    head[1..].copy_from_slice(&head_bytes(payload));
    head
}

/// A record, at the end of what is held.
pub(crate) fn push_record(held: &mut Vec<u8>, payload: &[u8]) -> Result<(), AllocError>
    requires { length payload.now < 2 ^ 32 }
    ensures added { OnOk result (held.new.items ≡ held.old.items ++ record_of payload.now) }
    ensures bounded { length held.new.items ≤ length held.old.items + record_head + length payload.now }
{
    held.extend_from_slice(&open_head(payload))?;
    held.extend_from_slice(payload)?;
    Ok(())
}
