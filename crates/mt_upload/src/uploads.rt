//! The uploads of an account, and an upload by its number.
ghost use Rattle.std.specs.Prelude.{◌≡◌, IfErr, IfOk};
ghost use Rattle.std.specs.List.Sorted.{IsStrictlySortedBy};
ghost use Rattle.std.specs.Ordering.{nat_cmp};
ghost use Rattle.mt_upload.specs.UploadList.{IsGapFor, IsPlaceOf, numbers_of};

use mt_types::Upload;
use std::alloc::Global;
use std::marker::Model;

/// The uploads of an account, generic in what a body is. Contracts see them as a list, in the order in which they were begun.
#[derive(Drop)]
pub struct Uploads<B> {
    pub(crate) uploads: Vec<Upload<B>>,
}

impl<B> Model for Uploads<B> {
    ghost use Rattle.std.specs.Prelude.{List};
    ghost use Rattle.mt_types.specs.declared.upload.Upload.{Upload};
    ghost use Rattle.mt_upload.specs.UploadList.{IsUploads};

    ghost Value = { List (Upload B) };

    ghost view = { λ s. s.uploads.items };

    ghost invariant = { λ s. IsUploads s.uploads.items };
}

/// Where the upload of a number stands, or where it would: a binary search.
pub(crate) fn find<B>(uploads: &[Upload<B>], number: u64) -> Result<usize, usize>
    requires { IsStrictlySortedBy nat_cmp (numbers_of uploads.now) }
    ensures found { IfOk result (IsPlaceOf (λ u. u.number) uploads.now number) }
    ensures absent { IfErr result (IsGapFor (λ u. u.number) uploads.now number) }
{
    uploads.binary_search_by_key(&number, |upload| upload.number)
}

impl<B> Uploads<B> {
    ghost use Rattle.std.specs.Prelude.{◌≡◌, [], IfSome, length, option_copied, slice_get};
    ghost use Rattle.std.specs.List.Sorted.{IsStrictlySortedBy};
    ghost use Rattle.std.specs.Ordering.{nat_cmp};
    ghost use Rattle.mt_model.specs.State.{upload_at};
    ghost use Rattle.mt_upload.specs.UploadList.{indexes_of};

    /// No upload.
    pub fn new(alloc: Global) -> Uploads<B>
        ensures { result ≡ [] }
    {
        Uploads {
            uploads: Vec::new(alloc),
        }
    }

    /// The number of uploads.
    pub fn len(&self) -> usize
        ensures { result ≡ length self.now }
    {
        self.uploads.len()
    }

    /// The upload at a place, in the order in which they were begun.
    pub fn at(&self, place: usize) -> Option<&Upload<B>>
        ensures { option_copied result ≡ slice_get self.now place }
    {
        self.uploads.get(place)
    }

    // The upload of a number, whose parts rise.
    pub(crate) fn find_upload(&self, number: u64) -> Option<&Upload<B>>
        ensures upload { option_copied result ≡ upload_at self.now number }
        ensures rising { IfSome result (λ u. IsStrictlySortedBy nat_cmp (indexes_of u.now.parts)) }
    {
        match find(&self.uploads, number) {
            Ok(place) => Some(&self.uploads[place]),
            Err(_) => None,
        }
    }

    /// The upload of a number, at the cost of a binary search. Takes no memory.
    pub fn get(&self, number: u64) -> Option<&Upload<B>>
        ensures { option_copied result ≡ upload_at self.now number }
    {
        self.find_upload(number)
    }
}
