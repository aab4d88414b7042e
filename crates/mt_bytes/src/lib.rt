//! Numbers and pieces as big-endian bytes, and numbers as decimal text.
//!
//! - `cursor`: reads numbers and pieces from the front of bytes, without taking memory.
//! - `put`: appends the same to a vector.
//! - `decimals`: reads a decimal of 1 to 19 digits.
//! - `laws`: what is written is read again, and bytes begin with one number alone.
#![tactic(auto)]

mod cursor;
mod decimals;
pub mod laws;
mod put;

pub use cursor::{Cursor, Short};
pub use decimals::read_decimal;
pub use put::{put_bytes, put_decimal, put_u8, put_u16, put_u32, put_u64};
