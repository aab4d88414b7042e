//! What a request is answered.
use crate::object::Fields;
use mt_base::{Bytes, Duplicate};
use std::alloc::{AllocError, Global};

/// The body of a reply.
#[derive(Debug, PartialEq, Eq, Drop)]
pub enum ReplyBody<B> {
    /// These bytes.
    Held(Bytes),
    /// Bytes of an object.
    Part {
        /// The object's body.
        body: B,
        /// The place of the first byte, from 0.
        from: u64,
        /// The place behind the last byte, at most the body's size.
        to: u64,
    },
}

/// A reply (RFC 9112, section 2.1). The fields `content-length` and `connection` are not among its
/// fields: they follow from the body and from `closes`.
#[derive(Debug, PartialEq, Eq, Drop)]
pub struct Reply<B> {
    /// The status code (RFC 9110, section 15).
    pub status: u16,
    /// All other fields.
    pub fields: Fields,
    /// The body.
    pub body: ReplyBody<B>,
    /// Whether the connection ends behind it.
    pub closes: bool,
}

impl<B: Duplicate> Duplicate for ReplyBody<B> {
    fn copy(&self, alloc: Global) -> Result<ReplyBody<B>, AllocError> {
        match self {
            ReplyBody::Held(bytes) => Ok(ReplyBody::Held(bytes.copy(alloc)?)),
            ReplyBody::Part { body, from, to } => Ok(ReplyBody::Part {
                body: body.copy(alloc)?,
                from: *from,
                to: *to,
            }),
        }
    }
}

impl<B: Duplicate> Duplicate for Reply<B> {
    fn copy(&self, alloc: Global) -> Result<Reply<B>, AllocError> {
        Ok(Reply {
            status: self.status,
            fields: self.fields.copy(alloc)?,
            body: self.body.copy(alloc)?,
            closes: self.closes,
        })
    }
}
