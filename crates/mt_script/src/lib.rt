//! What a client asks next, and what it makes of a reply.
//!
//! - `end`: how a run ends. `refusal`: the line of a refusal.
//! - `level`: a directory that is being listed. `rows`: what its rows show. `settle`: what is shown until a page is due.
//! - `page`: a reply to a request for a page. `once`: a reply to any other request.
//! - `laws`: the whole names that a search shows are the texts of paths.
#![tactic(auto)]

mod end;
pub mod laws;
mod level;
mod once;
mod page;
mod refusal;
mod rows;
mod settle;

pub use end::{ClientEnd, Closing};
pub use level::Level;
pub use once::{is_success, judge_once};
pub use page::judge_page;
pub use settle::{first_levels, go_on};
