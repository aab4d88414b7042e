//! The numbers of standard input, output and error.
use std::fs::File;
use std::io;
use std::os::fd::AsRawFd;
use std::rt::Files;

/// The numbers of standard input, output and error, each taken: where one of them was closed when the program started, by a file
/// that nothing can be written to. So no file that is opened later, as one of a store, gets the number of a stream. They are
/// given back when it is dropped.
#[derive(Drop)]
pub struct Standard {
    held: [Option<File>; 3],
}

impl Standard {
    /// Takes the numbers that are free.
    pub fn hold<R: Files<File = File>>(rt: &R) -> io::Result<Standard> {
        let mut held = [None, None, None];
        for place in 0..3 {
            let file = File::open(rt, "/dev/null")?;
            if file.as_raw_fd() > 2 {
                break;
            }
            held[place] = Some(file);
        }
        Ok(Standard { held })
    }
}
