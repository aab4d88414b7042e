//! A refusal with what its reply says besides its code.
ghost use Rattle.std.specs.Prelude.{◌≡◌};
ghost use Rattle.mt_error.specs.Refusals.{allowed_text, cannot_meet, not_allowed, plain};

use crate::code::ErrorCode;

/// The methods of a path, as `allow` lists them (RFC 9110, section 10.2.1).
#[derive(Clone, Copy, Debug, PartialEq, Eq)]
pub enum Methods {
    /// `DELETE, GET, HEAD, PUT`.
    Rows,
    /// `GET, HEAD`.
    Reads,
    /// `GET, HEAD, POST`.
    ReadsAndPosts,
    /// `POST`.
    Posts,
    /// `PUT`.
    Puts,
}

/// What the reply to a refusal says besides its code.
#[derive(Clone, Copy, Debug, PartialEq, Eq)]
pub enum More {
    /// Nothing.
    Nothing,
    /// Which methods the path has, of a 405 (RFC 9110, section 15.5.6).
    Allow(Methods),
    /// How many bytes the object has, of a 416 (RFC 9110, section 15.5.17).
    Size(u64),
}

/// A refusal.
#[derive(Clone, Copy, Debug, PartialEq, Eq)]
pub struct Refused {
    /// Its code.
    pub code: ErrorCode,
    /// What its reply says besides.
    pub more: More,
}

impl Methods {
    /// The value of `allow`.
    pub fn text(self) -> &'static str
        ensures { result.now ≡ allowed_text self }
    {
        match self {
            Methods::Rows => "DELETE, GET, HEAD, PUT",
            Methods::Reads => "GET, HEAD",
            Methods::ReadsAndPosts => "GET, HEAD, POST",
            Methods::Posts => "POST",
            Methods::Puts => "PUT",
        }
    }
}

impl Refused {
    /// A refusal that says its code alone.
    pub fn plain(code: ErrorCode) -> Refused
        ensures { result ≡ plain code }
    {
        Refused {
            code,
            more: More::Nothing,
        }
    }

    /// A method that a path does not have, and those that it has.
    pub fn not_allowed(methods: Methods) -> Refused
        ensures { result ≡ not_allowed methods }
    {
        Refused {
            code: ErrorCode::MethodNotAllowed,
            more: More::Allow(methods),
        }
    }

    /// A range of an object of this size that can't be met.
    pub fn cannot_meet(size: u64) -> Refused
        ensures { result ≡ cannot_meet size }
    {
        Refused {
            code: ErrorCode::RangeNotSatisfiable,
            more: More::Size(size),
        }
    }
}
