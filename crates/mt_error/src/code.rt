//! The errors of replies: their statuses, names and words.
ghost use Rattle.std.specs.Prelude.{◌≡◌, IfOk};
ghost use Rattle.mt_error.specs.ErrorTable.{error_body, status_of_error, name_of_error, words_of_error};

use mt_base::Bytes;
use std::alloc::{AllocError, Global};

/// The room that is taken for the body of an error: the longest has 81 bytes.
const BODY_ROOM: usize = 96;

/// Why a request is refused. The code in the body of its reply is the name of the variant.
#[derive(Clone, Copy, Debug, PartialEq, Eq)]
pub enum ErrorCode {
    /// 400: no message stands there, or its target, content type, metadata or query is not well formed.
    BadRequest,
    /// 404: nothing is at the path, or the target is none of this server.
    ResourceNotFound,
    /// 404: the parent of the path has no row.
    DirectoryDoesNotExist,
    /// 400: the parent of the path is an object.
    ParentNotDirectory,
    /// 400: the directory has children.
    DirectoryNotEmpty,
    /// 400: an object is put where a directory is.
    DirectoryOperation,
    /// 409: a directory is put where an object is.
    EntityExists,
    /// 400: the path is the root of an area.
    RootDirectory,
    /// 404: nothing is at the source of a link.
    LinkNotFound,
    /// 400: the source of a link is a directory.
    LinkNotObject,
    /// 400: a link has no Location field.
    LinkRequired,
    /// 412: a condition of the request does not hold.
    PreconditionFailed,
    /// 400: the Content-MD5 field is not the digest of the body.
    ContentMD5Mismatch,
    /// 413: the body is over the limit.
    RequestEntityTooLarge,
    /// 400: the limit of a page is not 1 to 1,024.
    InvalidLimit,
    /// 400: a job's document is not valid, or its assets are too large.
    InvalidJob,
    /// 404: no such job is there.
    JobNotFound,
    /// 400: the job is done, or its input has ended.
    JobState,
    /// 507: the log has no room.
    NotEnoughSpace,
    /// 405: the method is not one of this path.
    MethodNotAllowed,
    /// 403: the path is another account's.
    Authorization,
    /// 403: a page in a browser asks for a change, or for a script that outlives the page.
    OriginRefused,
    /// 416: none of the object's bytes is in the range.
    RangeNotSatisfiable,
    /// 400: a job would have too many inputs.
    InvalidArgument,
    /// 400: the durability level is not 1 to 6.
    InvalidDurabilityLevel,
    /// 400: names and values of the metadata are too long together.
    MetadataTooLarge,
    /// 404: no such upload is there.
    UploadNotFound,
    /// 409: the upload is committed or aborted.
    UploadState,
    /// 409: a part that is listed is not there.
    UploadPart,
    /// 400: what an upload is asked is not valid.
    InvalidUpload,
    /// 413: the parts have too many bytes together.
    UploadTooLarge,
}

impl ErrorCode {
    /// The status code of its reply (RFC 9110, section 15).
    pub fn status(self) -> u16
        ensures { result ≡ status_of_error self }
    {
        match self {
            ErrorCode::BadRequest
            | ErrorCode::ParentNotDirectory
            | ErrorCode::DirectoryNotEmpty
            | ErrorCode::DirectoryOperation
            | ErrorCode::RootDirectory
            | ErrorCode::LinkNotObject
            | ErrorCode::LinkRequired
            | ErrorCode::ContentMD5Mismatch
            | ErrorCode::InvalidLimit
            | ErrorCode::InvalidJob
            | ErrorCode::JobState
            | ErrorCode::InvalidArgument
            | ErrorCode::InvalidDurabilityLevel
            | ErrorCode::MetadataTooLarge
            | ErrorCode::InvalidUpload => 400,
            ErrorCode::Authorization | ErrorCode::OriginRefused => 403,
            ErrorCode::ResourceNotFound
            | ErrorCode::DirectoryDoesNotExist
            | ErrorCode::LinkNotFound
            | ErrorCode::JobNotFound
            | ErrorCode::UploadNotFound => 404,
            ErrorCode::MethodNotAllowed => 405,
            ErrorCode::EntityExists | ErrorCode::UploadState | ErrorCode::UploadPart => 409,
            ErrorCode::PreconditionFailed => 412,
            ErrorCode::RequestEntityTooLarge | ErrorCode::UploadTooLarge => 413,
            ErrorCode::RangeNotSatisfiable => 416,
            ErrorCode::NotEnoughSpace => 507,
        }
    }

    /// Its name, the code in the body of its reply.
    pub fn name(self) -> &'static str
        ensures { result.now ≡ name_of_error self }
    {
        match self {
            ErrorCode::BadRequest => "BadRequest",
            ErrorCode::ResourceNotFound => "ResourceNotFound",
            ErrorCode::DirectoryDoesNotExist => "DirectoryDoesNotExist",
            ErrorCode::ParentNotDirectory => "ParentNotDirectory",
            ErrorCode::DirectoryNotEmpty => "DirectoryNotEmpty",
            ErrorCode::DirectoryOperation => "DirectoryOperation",
            ErrorCode::EntityExists => "EntityExists",
            ErrorCode::RootDirectory => "RootDirectory",
            ErrorCode::LinkNotFound => "LinkNotFound",
            ErrorCode::LinkNotObject => "LinkNotObject",
            ErrorCode::LinkRequired => "LinkRequired",
            ErrorCode::PreconditionFailed => "PreconditionFailed",
            ErrorCode::ContentMD5Mismatch => "ContentMD5Mismatch",
            ErrorCode::RequestEntityTooLarge => "RequestEntityTooLarge",
            ErrorCode::InvalidLimit => "InvalidLimit",
            ErrorCode::InvalidJob => "InvalidJob",
            ErrorCode::JobNotFound => "JobNotFound",
            ErrorCode::JobState => "JobState",
            ErrorCode::NotEnoughSpace => "NotEnoughSpace",
            ErrorCode::MethodNotAllowed => "MethodNotAllowed",
            ErrorCode::Authorization => "Authorization",
            ErrorCode::OriginRefused => "OriginRefused",
            ErrorCode::RangeNotSatisfiable => "RangeNotSatisfiable",
            ErrorCode::InvalidArgument => "InvalidArgument",
            ErrorCode::InvalidDurabilityLevel => "InvalidDurabilityLevel",
            ErrorCode::MetadataTooLarge => "MetadataTooLarge",
            ErrorCode::UploadNotFound => "UploadNotFound",
            ErrorCode::UploadState => "UploadState",
            ErrorCode::UploadPart => "UploadPart",
            ErrorCode::InvalidUpload => "InvalidUpload",
            ErrorCode::UploadTooLarge => "UploadTooLarge",
        }
    }

    /// Its words, the message in the body of its reply.
    pub fn words(self) -> &'static str
        ensures { result.now ≡ words_of_error self }
    {
        match self {
            ErrorCode::BadRequest => "the request is not well formed",
            ErrorCode::ResourceNotFound => "no such resource",
            ErrorCode::DirectoryDoesNotExist => "the parent directory does not exist",
            ErrorCode::ParentNotDirectory => "the parent is not a directory",
            ErrorCode::DirectoryNotEmpty => "the directory is not empty",
            ErrorCode::DirectoryOperation => "the path is a directory",
            ErrorCode::EntityExists => "the path is an object",
            ErrorCode::RootDirectory => "the path is a root directory",
            ErrorCode::LinkNotFound => "the link's source does not exist",
            ErrorCode::LinkNotObject => "the link's source is not an object",
            ErrorCode::LinkRequired => "a link needs a Location",
            ErrorCode::PreconditionFailed => "a precondition does not hold",
            ErrorCode::ContentMD5Mismatch => "the body does not have this MD5",
            ErrorCode::RequestEntityTooLarge => "the body is over the limit",
            ErrorCode::InvalidLimit => "the limit must be 1 to 1024",
            ErrorCode::InvalidJob => "the job document is not valid",
            ErrorCode::JobNotFound => "no such job",
            ErrorCode::JobState => "the job does not take this now",
            ErrorCode::NotEnoughSpace => "the log is full",
            ErrorCode::MethodNotAllowed => "the method is not allowed here",
            ErrorCode::Authorization => "not this account",
            ErrorCode::OriginRefused => "requests of web pages are not taken",
            ErrorCode::RangeNotSatisfiable => "the range cannot be met",
            ErrorCode::InvalidArgument => "too many inputs",
            ErrorCode::InvalidDurabilityLevel => "the durability level must be 1 to 6",
            ErrorCode::MetadataTooLarge => "the metadata are over the limit",
            ErrorCode::UploadNotFound => "no such upload",
            ErrorCode::UploadState => "the upload is not open",
            ErrorCode::UploadPart => "a listed part is not there",
            ErrorCode::InvalidUpload => "the upload request is not valid",
            ErrorCode::UploadTooLarge => "the joined object is over the limit",
        }
    }

    /// The body of its reply, a JSON object (RFC 8259).
    pub fn body(self, alloc: Global) -> Result<Bytes, AllocError>
        ensures { IfOk result (λ body. body ≡ error_body self) }
    {
        let mut out = Vec::with_capacity(alloc, BODY_ROOM)?;
        out.extend_from_slice(b"{\"code\":\"")?;
        out.extend_from_slice(self.name().as_bytes())?;
        out.extend_from_slice(b"\",\"message\":\"")?;
        out.extend_from_slice(self.words().as_bytes())?;
        out.extend_from_slice(b"\"}")?;
        Ok(Bytes::from_vec(out))
    }
}
