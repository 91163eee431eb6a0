//! Lines on standard error, which is never waited for.

use arrayvec::ArrayString;
use libc::STDERR_FILENO;
use libc::net::{POLLOUT, poll};
use libc::types::pollfd;
use std::fmt::{Display, Write};
use std::io::Eprint;

/// The most bytes of a line, without its line feed. With it they are what a pipe takes at once
/// (`PIPE_BUF`), if it takes anything.
const LINE_LIMIT: usize = 4095;

/// Whether standard error has room for a line now.
fn has_room() -> bool {
    let mut asked = [pollfd {
        fd: STDERR_FILENO,
        events: POLLOUT,
        revents: 0,
    }];
    poll(&mut asked, 0) == 1 && asked[0].revents & POLLOUT != 0
}

/// Writes a line to standard error if there is room for it now, cut at 4,095 bytes. False if it was not
/// written.
pub fn tell_line<F: Eprint, D: Display + Drop>(rt: &F, text: D) -> bool {
    let mut line: ArrayString<LINE_LIMIT> = ArrayString::new();
    let _cut = write!(line, "{text}");
    has_room() && eprintln!(rt; "{line}").is_ok()
}
