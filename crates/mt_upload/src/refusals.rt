//! Whether commands on uploads are allowed: by look-ups and one walk, without memory.
ghost use Rattle.std.specs.Prelude.{◌≡◌, Some, None};
ghost use Rattle.std.specs.List.Sorted.{IsStrictlySortedBy};
ghost use Rattle.std.specs.Ordering.{nat_cmp};
ghost use Rattle.mt_model.specs.UploadSteps.{commit_upload_refusal, new_upload_refusal, upload_refusal};
ghost use Rattle.mt_tree.specs.Answer.{answer};
ghost use Rattle.mt_upload.specs.UploadList.{indexes_of};

use crate::parts::{are_listed, front_len};
use crate::uploads::Uploads;
use mt_tree::Tree;
use mt_types::{Area, Body, Path, Refusal, Stage, Upload};

/// The object that the parts of an upload are joined to, in bytes.
const LARGEST_JOINED: u64 = 1_073_741_824;

/// Whether an upload may be begun for a path: `RootDirectory` where it is a root, or lies in the area of jobs. It takes no memory.
pub fn may_begin(path: &Path) -> Result<(), Refusal>
    ensures { result ≡ answer (new_upload_refusal path.now) }
{
    match path.area() {
        Area::Jobs => Err(Refusal::RootDirectory),
        Area::Stor | Area::Public => {
            if path.is_root() {
                Err(Refusal::RootDirectory)
            } else {
                Ok(())
            }
        }
    }
}

// Whether an upload takes parts.
fn open_test<B>(upload: &Upload<B>) -> Result<(), Refusal>
    ensures { result ≡ answer (upload_refusal (Some upload.now) (λ u. None)) }
{
    match upload.stage {
        Stage::Open => Ok(()),
        Stage::Committed | Stage::Aborted => Err(Refusal::UploadState),
    }
}

// Whether an upload may be committed of these parts.
fn commit_test(tree: &Tree<Body>, upload: &Upload<Body>, numbers: &[u64]) -> Result<(), Refusal>
    requires { IsStrictlySortedBy nat_cmp (indexes_of upload.now.parts) }
    ensures { result ≡ answer (upload_refusal (Some upload.now) (commit_upload_refusal (λ b. b.len) tree.now numbers.now)) }
{
    open_test(upload)?;
    // The parts come first: only where all are there are those that are listed the front, whose bytes are summed.
    if !are_listed(upload.parts.as_slice(), numbers) {
        return Err(Refusal::UploadPart);
    }
    if front_len(upload.parts.as_slice(), numbers.len()) > LARGEST_JOINED {
        return Err(Refusal::UploadTooLarge);
    }
    tree.may_put(&upload.path)
}

impl<B> Uploads<B> {
    ghost use Rattle.std.specs.Prelude.{◌≡◌, None};
    ghost use Rattle.mt_model.specs.State.{upload_at};
    ghost use Rattle.mt_model.specs.UploadSteps.{upload_refusal};
    ghost use Rattle.mt_tree.specs.Answer.{answer};

    // Whether an upload is there and open.
    fn may_change(&self, upload: u64) -> Result<(), Refusal>
        ensures { result ≡ answer (upload_refusal (upload_at self.now upload) (λ u. None)) }
    {
        match self.get(upload) {
            Some(upload) => open_test(upload),
            None => Err(Refusal::UploadNotFound),
        }
    }

    /// Whether a part may be put to an upload: `UploadNotFound`, `UploadState` where it is committed or aborted.
    pub fn may_put_part(&self, upload: u64) -> Result<(), Refusal>
        ensures { result ≡ answer (upload_refusal (upload_at self.now upload) (λ u. None)) }
    {
        self.may_change(upload)
    }

    /// Whether an upload may be given up: `UploadNotFound`, `UploadState` where it is committed or aborted.
    pub fn may_abort(&self, upload: u64) -> Result<(), Refusal>
        ensures { result ≡ answer (upload_refusal (upload_at self.now upload) (λ u. None)) }
    {
        self.may_change(upload)
    }
}

impl Uploads<Body> {
    ghost use Rattle.std.specs.Prelude.{◌≡◌, min, take};
    ghost use Rattle.std.specs.List.{sum_by};
    ghost use Rattle.mt_model.specs.State.{upload_at};
    ghost use Rattle.mt_model.specs.UploadSteps.{commit_upload_refusal, upload_refusal};
    ghost use Rattle.mt_tree.specs.Answer.{answer};
    ghost use Rattle.mt_upload.specs.Shown.{parts_of};

    /// Whether an upload may be committed of the parts of these numbers: `UploadNotFound`, `UploadState` where it is committed or
    /// aborted, `UploadPart` where the number at a place isn't that of the part of this index, `UploadTooLarge` where they have more
    /// than 1,073,741,824 bytes together, and then as an object may be put at its path. It costs one walk over the numbers.
    pub fn may_commit(&self, tree: &Tree<Body>, upload: u64, numbers: &[u64]) -> Result<(), Refusal>
        ensures { result ≡ answer (upload_refusal (upload_at self.now upload) (commit_upload_refusal (λ b. b.len) tree.now numbers.now)) }
    {
        match self.find_upload(upload) {
            Some(upload) => commit_test(tree, upload, numbers),
            None => Err(Refusal::UploadNotFound),
        }
    }

    /// How many bytes the first parts of an upload have together, so many of them, by their index; a sum that isn't below 2^64 stands
    /// at 2^64 - 1. Where there is no such upload, 0. Takes no memory.
    pub fn joined_len(&self, upload: u64, count: usize) -> u64
        ensures { result ≡ min 18446744073709551615 (sum_by (λ p. p.body.len) (take count (parts_of (upload_at self.now upload)))) }
    {
        match self.get(upload) {
            Some(upload) => front_len(upload.parts.as_slice(), count),
            None => 0,
        }
    }
}
