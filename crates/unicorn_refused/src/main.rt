//! The same program, which the gate runs with words that it does not take.
#![tactic(auto)]

use std::process::ExitCode;
use unicorn_start::start;

fn main(rt: HostRuntime) -> ExitCode {
    start(&rt, rt.stdin(), rt.stdout())
}
