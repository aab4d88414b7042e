//! What a path is for, and which methods it has.
ghost use Rattle.std.specs.Prelude.{◌≡◌};
ghost use Rattle.mt_request.specs.Routes.{is_input_end, is_jobs, jobs_route, live_named, live_route, methods_at, part_at, route_of};

use mt_error::Methods;
use mt_ident::uuid_number;
use mt_path::{Area, Path};
use mt_types::LiveText;

/// What a path is for. A job is told by its number, and `None` is a name that no job can have.
#[derive(Clone, Copy, Debug, PartialEq, Eq)]
pub enum Route {
    /// Objects and directories of the account's owner.
    Rows,
    /// The folder of all jobs.
    Jobs,
    /// What stands below it, but for what is told and asked of a job below its `live`.
    JobRow,
    /// A text of a job, but for its inputs.
    Live {
        /// Which job.
        job: Option<u64>,
        /// Which text.
        text: LiveText,
    },
    /// The inputs of a job.
    Input {
        /// Which job.
        job: Option<u64>,
    },
    /// The end of its input.
    InputEnd {
        /// Which job.
        job: Option<u64>,
    },
    /// The end of a job before it is done.
    Cancel {
        /// Which job.
        job: Option<u64>,
    },
    /// Nothing: any other path at or below a job's `live`.
    Nowhere,
}

fn is_jobs(area: Area) -> bool
    ensures { result ≡ is_jobs area }
{
    match area {
        Area::Jobs => true,
        Area::Stor => false,
        Area::Public => false,
    }
}

// The component at a place, no bytes where there is none.
fn part_at(path: &Path, place: usize) -> &[u8]
    ensures { result.now ≡ part_at path.now.parts place }
{
    if place < path.len() {
        path.part(place)
    } else {
        &[]
    }
}

// What is told or asked of a job under this name.
fn live_named(job: Option<u64>, name: &[u8]) -> Route
    ensures { result ≡ live_named job name.now }
{
    if name == b"in".as_slice() {
        return Route::Input { job };
    }
    if name == b"cancel".as_slice() {
        return Route::Cancel { job };
    }
    if name == b"status".as_slice() {
        return Route::Live {
            job,
            text: LiveText::Status,
        };
    }
    if name == b"out".as_slice() {
        return Route::Live {
            job,
            text: LiveText::Out,
        };
    }
    if name == b"fail".as_slice() {
        return Route::Live {
            job,
            text: LiveText::Fail,
        };
    }
    if name == b"err".as_slice() {
        return Route::Live {
            job,
            text: LiveText::Err,
        };
    }
    if name == b"tasks".as_slice() {
        return Route::Live {
            job,
            text: LiveText::Tasks,
        };
    }
    Route::Nowhere
}

// Whether the components behind `live` are `in` and `end`.
fn is_input_end(path: &Path) -> bool
    ensures { result ≡ is_input_end path.now.parts }
{
    path.len() == 4 && part_at(path, 2) == b"in".as_slice() && part_at(path, 3) == b"end".as_slice()
}

// What a path below a job's `live` is for.
fn live_route(job: Option<u64>, path: &Path) -> Route
    ensures { result ≡ live_route job path.now.parts }
{
    if path.len() == 3 {
        return live_named(job, part_at(path, 2));
    }
    if is_input_end(path) {
        return Route::InputEnd { job };
    }
    Route::Nowhere
}

// What a path in the area of jobs is for.
fn jobs_route(path: &Path) -> Route
    ensures { result ≡ jobs_route path.now.parts }
{
    if path.len() == 0 {
        return Route::Jobs;
    }
    if part_at(path, 1) == b"live".as_slice() {
        return live_route(uuid_number(2, part_at(path, 0)), path);
    }
    Route::JobRow
}

/// What a path is for.
#[tactic(auto, unfolding(crate::specs::Routes::route_of))]
pub fn route_of(path: &Path) -> Route
    ensures { result ≡ route_of path.now }
{
    if is_jobs(path.area()) {
        jobs_route(path)
    } else {
        Route::Rows
    }
}

/// The methods of what a path is for; none of what is for nothing.
pub fn methods_at(route: Route) -> Option<Methods>
    ensures { result ≡ methods_at route }
{
    match route {
        Route::Rows => Some(Methods::Rows),
        Route::Jobs | Route::Input { .. } => Some(Methods::ReadsAndPosts),
        Route::JobRow | Route::Live { .. } => Some(Methods::Reads),
        Route::InputEnd { .. } | Route::Cancel { .. } => Some(Methods::Posts),
        Route::Nowhere => None,
    }
}
