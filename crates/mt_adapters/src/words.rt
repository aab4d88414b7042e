//! The words that a program was called with.
use std::alloc::{AllocError, Global};
use std::env;
use std::io::ErrorKind;

/// The words behind the program's own name. There are none where one of them is no UTF-8, so that this is a wrong usage.
pub fn words_of(rt: &HostRuntime, alloc: Global) -> Result<Vec<String>, AllocError> {
    let mut words = Vec::new(alloc);
    match env::args(rt) {
        Ok(args) => {
            for word in args.skip(1) {
                words.push(word)?;
            }
            Ok(words)
        }
        Err(e) if e.kind() == ErrorKind::InvalidData => Ok(words),
        Err(_) => Err(AllocError),
    }
}
