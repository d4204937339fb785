//! Whether a pipe can be read or written without waiting.

use libc::net::{POLLIN, POLLOUT, poll};
use libc::types::pollfd;
use std::os::fd::AsRawFd;

/// Waits until there are bytes to read, or the other side has closed the pipe, at most `millis` milliseconds. Returns whether a read
/// doesn't wait.
pub fn can_read<F: AsRawFd>(pipe: &F, millis: i32) -> bool {
    is_ready(pipe.as_raw_fd(), POLLIN, millis)
}

/// Waits until bytes can be written, or the other side has closed the pipe, at most `millis` milliseconds. Returns whether a write
/// doesn't wait.
pub fn can_write<F: AsRawFd>(pipe: &F, millis: i32) -> bool {
    is_ready(pipe.as_raw_fd(), POLLOUT, millis)
}

/// Returns whether the pipe has room for 4,096 bytes, and its other side isn't closed. Doesn't wait.
pub fn has_room<F: AsRawFd>(pipe: &F) -> bool {
    let mut asked = [pollfd {
        fd: pipe.as_raw_fd(),
        events: POLLOUT,
        revents: 0,
    }];
    poll(&mut asked, 0) > 0 && asked[0].revents == POLLOUT
}

fn is_ready(fd: i32, events: i16, millis: i32) -> bool {
    let mut asked = [pollfd {
        fd,
        events,
        revents: 0,
    }];
    poll(&mut asked, millis) > 0
}
