//! Why a request is refused.
ghost use Rattle.std.specs.Prelude.{◌≡◌, None};
ghost use Rattle.std.specs.Option.{option_copied};
ghost use Rattle.mt_answer.specs.Judging.{account_refusal, code_of, directory_refusal, is_put_object, len_of, limit_refusal, look_refusal, range_refusal, read_refusal, refusal_of, refused_as, refused_by, stores_body};
ghost use Rattle.mt_store.specs.Decisions.{read_now};

use mt_cond::{Conditions, Range, Ranged, range_of};
use mt_error::{ErrorCode, Refused};
use mt_request::{Doing, Page, Request};
use mt_store::{Found, StoreError, may_delete, may_link, may_put, read_object};
use mt_tree::Tree;
use mt_types::{Body, Entry, Object, Path, Refusal};

/// The first refusal of a request whose body has this digest, in the one order of all; without a digest, the first that stands
/// whatever the body is. A log without room refuses behind all of these, and is not looked at here. Takes no memory.
#[tactic(auto, unfolding(crate::specs::Judging::refusal_of))]
pub fn refusal_of(
    request: &Request,
    tree: &Tree<Body>,
    conditions: &Conditions,
    digest: Option<&[u8; 16]>,
) -> Option<Refused>
    ensures { result ≡ refusal_of len_of request.now tree.now conditions.now (option_copied digest.entry) }
{
    match request.refusal(digest) {
        Some(refused) => Some(refused),
        None => account_refusal(tree, conditions, &request.doing),
    }
}

/// Whether the body of a request is to be stored: it puts an object, and only its digest or the room could still refuse it. Any
/// other body is digested and dropped. Takes no memory.
pub fn stores_body(request: &Request, tree: &Tree<Body>, conditions: &Conditions) -> bool
    ensures { result ≡ stores_body len_of request.now tree.now conditions.now }
{
    if !is_put_object(&request.doing) {
        return false;
    }
    refusal_of(request, tree, conditions, None).is_none()
}

fn is_put_object(doing: &Doing) -> bool
    ensures { result ≡ is_put_object doing.now }
{
    match doing {
        Doing::PutObject { .. } => true,
        Doing::Nothing
        | Doing::PutDirectory { .. }
        | Doing::PutLink { .. }
        | Doing::Remove { .. }
        | Doing::Look { .. } => false,
    }
}

// Why the account doesn't do it: the tree, then the conditions of the request, then its range.
fn account_refusal(tree: &Tree<Body>, conditions: &Conditions, doing: &Doing) -> Option<Refused>
    ensures { result ≡ account_refusal len_of tree.now conditions.now doing.now }
{
    match doing {
        Doing::Nothing => None,
        Doing::PutObject { path, .. } => refused_by(may_put(tree, path, conditions)),
        Doing::PutDirectory { path } => directory_refusal(tree, path),
        Doing::PutLink { path, source } => refused_by(may_link(tree, path, source, conditions)),
        Doing::Remove { path } => refused_by(may_delete(tree, path, conditions)),
        Doing::Look { path, page, range } => look_refusal(tree, conditions, path, page, range),
    }
}

// Why no directory is made: none stands there, and none can be made.
fn directory_refusal(tree: &Tree<Body>, path: &Path) -> Option<Refused>
    ensures { result ≡ directory_refusal tree.now path.now }
{
    if let Some(Entry::Directory { .. }) = tree.get(path) {
        return None;
    }
    match tree.may_make_directory(path) {
        Ok(()) => None,
        Err(refusal) => Some(Refused::plain(code_of(refusal))),
    }
}

// Why what stands at a path isn't shown: the limit of the page, then the reading, then the range.
fn look_refusal(
    tree: &Tree<Body>,
    conditions: &Conditions,
    path: &Path,
    page: &Option<Page>,
    range: &Option<Range>,
) -> Option<Refused>
    ensures { result ≡ look_refusal len_of tree.now conditions.now path.now page.now range.now }
{
    let is_object = match tree.get(path) {
        Some(Entry::Object(_)) => true,
        _ => false,
    };
    match limit_refusal(is_object, page) {
        Some(refused) => Some(refused),
        None => read_refusal(read_object(tree, path, conditions), range),
    }
}

/// Why the limit of a page is none, where it is looked at.
pub(crate) fn limit_refusal(is_object: bool, page: &Option<Page>) -> Option<Refused>
    ensures { result ≡ limit_refusal is_object page.now }
{
    match page {
        Some(_) => None,
        None => {
            if is_object {
                None
            } else {
                Some(Refused::plain(ErrorCode::InvalidLimit))
            }
        }
    }
}

// Why what was found isn't shown.
fn read_refusal(
    found: Result<Found<&Object<Body>>, StoreError>,
    range: &Option<Range>,
) -> Option<Refused>
    ensures { result ≡ read_refusal len_of (read_now found.entry) range.now }
{
    match found {
        Err(error) => Some(refused_as(error)),
        Ok(Found::Directory) => None,
        Ok(Found::NotModified(_)) => None,
        Ok(Found::Object(object)) => range_refusal(object.body.len, range),
    }
}

// Why no byte of an object of this size is in the range.
fn range_refusal(size: u64, range: &Option<Range>) -> Option<Refused>
    ensures { result ≡ range_refusal size range.now }
{
    match range {
        None => None,
        Some(range) => match range_of(range, size) {
            Ranged::CannotMeet => Some(Refused::cannot_meet(size)),
            Ranged::Whole | Ranged::Part { .. } => None,
        },
    }
}

fn refused_by(decision: Result<(), StoreError>) -> Option<Refused>
    ensures { result ≡ refused_by decision }
{
    match decision {
        Ok(()) => None,
        Err(error) => Some(refused_as(error)),
    }
}

// The refusal of the tree, or of a condition.
fn refused_as(error: StoreError) -> Refused
    ensures { result ≡ refused_as error }
{
    match error {
        StoreError::Refused(refusal) => Refused::plain(code_of(refusal)),
        StoreError::PreconditionFailed => Refused::plain(ErrorCode::PreconditionFailed),
    }
}

/// The error that tells of a refusal of the account.
pub(crate) fn code_of(refusal: Refusal) -> ErrorCode
    ensures { result ≡ code_of refusal }
{
    match refusal {
        Refusal::RootDirectory => ErrorCode::RootDirectory,
        Refusal::DirectoryDoesNotExist => ErrorCode::DirectoryDoesNotExist,
        Refusal::ParentNotDirectory => ErrorCode::ParentNotDirectory,
        Refusal::DirectoryOperation => ErrorCode::DirectoryOperation,
        Refusal::EntityExists => ErrorCode::EntityExists,
        Refusal::NotFound => ErrorCode::ResourceNotFound,
        Refusal::DirectoryNotEmpty => ErrorCode::DirectoryNotEmpty,
        Refusal::LinkNotFound => ErrorCode::LinkNotFound,
        Refusal::LinkNotObject => ErrorCode::LinkNotObject,
        Refusal::AssetsTooLarge => ErrorCode::InvalidJob,
        Refusal::JobNotFound => ErrorCode::JobNotFound,
        Refusal::JobState | Refusal::NotATask | Refusal::AlreadyCommitted | Refusal::NotComplete =>
            ErrorCode::JobState,
        Refusal::TooManyInputs => ErrorCode::InvalidArgument,
        Refusal::UploadNotFound => ErrorCode::UploadNotFound,
        Refusal::UploadState => ErrorCode::UploadState,
        Refusal::UploadPart => ErrorCode::UploadPart,
        Refusal::UploadTooLarge => ErrorCode::UploadTooLarge,
    }
}
