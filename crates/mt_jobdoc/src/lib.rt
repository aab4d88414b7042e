//! Job documents: what a job is asked to do, as JSON (RFC 8259).
//!
//! - `reading`: a document is read. `phases`: its phases. `fields`: what stands in a phase.
//! - `printing`: its phases as they are shown.
//! - `laws`: what is read is a document.
//! - `error`: why a document is refused.
#![tactic(auto)]

mod error;
mod fields;
mod laws;
mod phases;
mod printing;
mod reading;

pub use error::InvalidJob;
pub use laws::documents_are_documents;
pub use printing::{phases_value, print};
pub use reading::{read, read_phases};
