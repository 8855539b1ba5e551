//! How the program starts: its words, its streams, and the number that it ends with.
#![tactic(auto)]

ghost use Rattle.std.specs.Prelude.{◌≡◌, [], IfOk, IfErr, IsErr, ◌↔◌};
ghost use Rattle.std.specs.IoError.{error_kind};

use std::alloc::Global;
use std::env::Env;
use std::io::{ErrorKind, Read, Write};
use std::process::ExitCode;
use std::sync::Wait;
use std::thread::Threads;
use std::{env, io};
use uni_base::{StdSink, StdSource};
use unicorn_round::{OpenGate, Status, TurnChooser, run};

/// Runs the program over its words, with a script from `input` and its answers to `output`, and says
/// with what it ends.
pub fn start<R, I, O>(rt: &R, input: I, output: O) -> ExitCode
where
    R: Env + AllocGlobal + Threads + Wait + Sync,
    I: Read + Drop,
    O: Write + Drop,
{
    let status = match words_given(rt.alloc(), read_words(rt)) {
        Ok(words) => run(
            rt,
            rt.alloc(),
            words.as_slice(),
            &mut StdSource::new(input),
            &mut StdSink::new(output),
            &TurnChooser,
            &OpenGate,
        ),
        Err(status) => status,
    };
    ExitCode::from(status.number())
}

// The words of the command line. It is an error where one of them is no text.
fn read_words<R: Env + AllocGlobal>(rt: &R) -> io::Result<Vec<String>> {
    Ok(env::args(rt)?.collect(rt.alloc())?)
}

// The words to run with, or the status that is due where memory for them ran out. Words that are no
// text are none that the program takes, so they are read as no words at all.
fn words_given(alloc: Global, read: io::Result<Vec<String>>) -> Result<Vec<String>, Status>
    ensures given { IfOk read (λ words. result ≡ Ok words) }
    ensures no_text { IfErr read (λ _. IfOk result (λ words. words.items ≡ [])) }
    ensures no_memory { IfErr read (λ e. IsErr result ↔ (error_kind e ≡ ErrorKind.OutOfMemory)) }
    ensures status { IfErr result (λ status. status ≡ Status.Memory) }
{
    match read {
        Ok(words) => Ok(words),
        Err(error) => {
            if error.kind() == ErrorKind::OutOfMemory {
                Err(Status::Memory)
            } else {
                Ok(Vec::new(alloc))
            }
        }
    }
}
