//! Descriptors 0, 1 and 2, which the program takes for its standard streams.

use std::fs::{File, OpenOptions};
use std::os::fd::AsRawFd;

/// The descriptor of standard input.
const INPUT: i32 = 0;

/// The descriptor of standard error, the highest of a standard stream.
const ERROR: i32 = 2;

/// Opens `/dev/null`, for writing alone or for reading alone.
fn open_null(rt: &HostRuntime, writes: bool) -> Option<File> {
    OpenOptions::new()
        .read(!writes)
        .write(writes)
        .open(rt, "/dev/null")
        .ok()
}

/// A file at standard input if that is closed. A read of it fails, as one of a closed stream does.
fn fill_input(rt: &HostRuntime) -> Option<File> {
    let file = open_null(rt, true)?;
    if file.as_raw_fd() == INPUT {
        return Some(file);
    }
    None
}

/// A file at standard output or standard error if one is closed. A write to it fails, as one to a closed
/// stream does.
fn fill_output(rt: &HostRuntime) -> Option<File> {
    let file = open_null(rt, false)?;
    if file.as_raw_fd() <= ERROR {
        return Some(file);
    }
    None
}

/// Opens those of descriptors 0, 1 and 2 that are closed, and returns them. Otherwise the next file that
/// is opened would be taken for a standard stream: a line on standard error would go into the journal.
///
/// The system gives each file the lowest descriptor that is free.
pub fn fill_standard(rt: &HostRuntime) -> [Option<File>; 3] {
    let input = fill_input(rt);
    let output = fill_output(rt);
    let error = fill_output(rt);
    [input, output, error]
}
