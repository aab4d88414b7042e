//! The reducer of a key.
ghost use Rattle.std.specs.Prelude.{◌≡◌, ◌<◌};
ghost use Rattle.mt_split.specs.Partition.{reducer_of};

use md5::{Digest, Md5};

/// The reducer of a key, of `n`: the first four bytes of the key's MD5 as a number, the highest byte first, modulo `n`.
/// Takes no memory.
pub fn route(key: &[u8], n: u32) -> u32
    requires some { 0 < n }
    ensures value { result ≡ reducer_of key.now n }
    ensures below { result < n }
{
    let digest = Md5::digest(key);
    let mut front = [0u8; 4];
    front.copy_from_slice(&digest[..4]);
    u32::from_be_bytes(front) % n
}
