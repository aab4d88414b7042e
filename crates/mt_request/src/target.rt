//! The path of a request, and the refusals that stand before the digest of its body.
ghost use Rattle.std.specs.Prelude.{◌≡◌, IfOk};
ghost use Rattle.mt_request.specs.Target.{early_at, error_of_path, has_method, is_of_page, is_reading, path_read, route_refusal};

use crate::route::{Route, methods_at};
use mt_error::{ErrorCode, Methods, Refused};
use mt_http::Head;
use mt_path::{Path, PathError};
use mt_types::has_field;
use std::alloc::{AllocError, Global};

// Why a target, or a Location, names no path.
fn error_of_path(error: PathError) -> ErrorCode
    ensures { result ≡ error_of_path error }
{
    match error {
        PathError::Empty => ErrorCode::BadRequest,
        PathError::TooLong => ErrorCode::BadRequest,
        PathError::BadComponent => ErrorCode::BadRequest,
        PathError::OtherLogin => ErrorCode::Authorization,
        PathError::NoArea => ErrorCode::ResourceNotFound,
        PathError::Memory => ErrorCode::BadRequest,
    }
}

/// The path that a target or a Location names, or why it names none.
pub fn read_path(
    alloc: Global,
    login: &str,
    raw: &[u8],
) -> Result<Result<Path, ErrorCode>, AllocError>
    ensures { IfOk result (λ path. path ≡ path_read login.now raw.now) }
{
    match Path::parse(alloc, login, raw) {
        Ok(path) => Ok(Ok(path)),
        Err(PathError::Memory) => Err(AllocError),
        Err(error) => Ok(Err(error_of_path(error))),
    }
}

fn is_reading(name: &str) -> bool
    ensures { result ≡ is_reading name.now }
{
    name == "GET" || name == "HEAD"
}

fn has_method(methods: Methods, name: &str) -> bool
    ensures { result ≡ has_method methods name.now }
{
    match methods {
        Methods::Rows => name == "DELETE" || is_reading(name) || name == "PUT",
        Methods::Reads => is_reading(name),
        Methods::ReadsAndPosts => is_reading(name) || name == "POST",
        Methods::Posts => name == "POST",
        Methods::Puts => name == "PUT",
    }
}

// Why a request is refused by what its path is for and by its method.
fn route_refusal(methods: Option<Methods>, name: &str) -> Option<Refused>
    ensures { result ≡ route_refusal methods name.now }
{
    match methods {
        None => Some(Refused::plain(ErrorCode::ResourceNotFound)),
        Some(methods) => {
            if has_method(methods, name) {
                None
            } else {
                Some(Refused::not_allowed(methods))
            }
        }
    }
}

// Whether a request comes from a page in a browser and would change something, or asks for a script that outlives its page.
fn is_of_page(head: &Head) -> bool
    ensures { result ≡ is_of_page head.now }
{
    let fields = head.fields.as_slice();
    has_field(fields, "service-worker")
        || !is_reading(head.method.as_str()) && has_field(fields, "origin")
}

/// The first refusal of a path before the digest: what it is for, its methods, the pages of browsers.
pub fn early_at(route: Route, head: &Head) -> Option<Refused>
    ensures { result ≡ early_at route head.now }
{
    if let Some(refused) = route_refusal(methods_at(route), head.method.as_str()) {
        return Some(refused);
    }
    if is_of_page(head) {
        return Some(Refused::plain(ErrorCode::OriginRefused));
    }
    None
}
