//! A head read into what it asks for.
//!
//! - `asked`: what a head asks for, of objects and directories (`request`) or of jobs (`jobs`). `route`: what its path is for.
//! - `target`: the path, and the refusals that stand before the digest of the body. `digest`: that digest.
//! - `put`: what a PUT asks for, and the refusals behind the digest. `kind`: what it makes. `metadata`: of an object.
//! - `query`: pages. `laws`: the order of all refusals; what is asked is within the limits of values.
#![tactic(auto)]

mod asked;
mod digest;
mod jobs;
mod kind;
pub mod laws;
mod metadata;
mod put;
mod query;
mod request;
mod route;
mod target;

pub use asked::{Asked, JobRequest, asked_of};
pub use digest::Wish;
pub use jobs::JobDoing;
pub use query::Page;
pub use request::{Doing, Request};
