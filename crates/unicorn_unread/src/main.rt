//! The program `unicorn` over a reader that gives one round and a part of another, and then fails.
#![tactic(auto)]

use std::io::{self, Error, ErrorKind, Read};
use std::process::ExitCode;
use unicorn_start::start;

static SCRIPT: &[u8] =
    b"unicorn 1\nvertical user 1 1\nbegin\nentity user 1 50\npublish\ngo\npublish\n";

/// Gives its bytes at the first read, and is in error at every other.
#[derive(Drop)]
struct Broken {
    is_read: bool,
}

impl Read for Broken {
    fn read(&mut self, into: &mut [u8]) -> io::Result<usize> {
        if self.is_read || into.len() < SCRIPT.len() {
            return Err(Error::new(ErrorKind::Other, "no byte"));
        }
        self.is_read = true;
        into[..SCRIPT.len()].copy_from_slice(SCRIPT);
        Ok(SCRIPT.len())
    }
}

fn main(rt: HostRuntime) -> ExitCode {
    start(&rt, Broken { is_read: false }, rt.stdout())
}
