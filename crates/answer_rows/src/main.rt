//! `answer_rows`: requests and what they are answered, row by row. Its stored run is the table of the cases of `mt_api` and `mt_answer`.
//!
//! - `state`: the store and the request that rows speak of. `asking`: a request and its answer.
#![tactic(auto)]

mod asking;
mod state;

use mt_rows::print_table;
use state::Store;
use std::io;

fn main(rt: HostRuntime) -> io::Result<()> {
    print_table(&rt, &mut Store::new(rt.alloc()))
}
