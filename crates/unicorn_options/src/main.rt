//! The program `unicorn`: a script from standard input, its answers to standard output.
#![tactic(auto)]

use std::process::ExitCode;
use unicorn_start::start;

fn main(rt: HostRuntime) -> ExitCode {
    start(&rt, rt.stdin(), rt.stdout())
}
