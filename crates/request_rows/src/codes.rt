//! Errors by their names.
use mt_error::ErrorCode;

/// All errors.
const ALL: [ErrorCode; 31] = [
    ErrorCode::BadRequest,
    ErrorCode::ResourceNotFound,
    ErrorCode::DirectoryDoesNotExist,
    ErrorCode::ParentNotDirectory,
    ErrorCode::DirectoryNotEmpty,
    ErrorCode::DirectoryOperation,
    ErrorCode::EntityExists,
    ErrorCode::RootDirectory,
    ErrorCode::LinkNotFound,
    ErrorCode::LinkNotObject,
    ErrorCode::LinkRequired,
    ErrorCode::PreconditionFailed,
    ErrorCode::ContentMD5Mismatch,
    ErrorCode::RequestEntityTooLarge,
    ErrorCode::InvalidLimit,
    ErrorCode::InvalidJob,
    ErrorCode::JobNotFound,
    ErrorCode::JobState,
    ErrorCode::NotEnoughSpace,
    ErrorCode::MethodNotAllowed,
    ErrorCode::Authorization,
    ErrorCode::OriginRefused,
    ErrorCode::RangeNotSatisfiable,
    ErrorCode::InvalidArgument,
    ErrorCode::InvalidDurabilityLevel,
    ErrorCode::MetadataTooLarge,
    ErrorCode::UploadNotFound,
    ErrorCode::UploadState,
    ErrorCode::UploadPart,
    ErrorCode::InvalidUpload,
    ErrorCode::UploadTooLarge,
];

/// The error of this name.
pub fn code_named(name: &str) -> Option<ErrorCode> {
    for code in ALL {
        if code.name() == name {
            return Some(code);
        }
    }
    None
}
