//! What the words of the command line ask for, or why they are not taken.
ghost use Rattle.std.specs.Prelude.{◌≡◌, IfOk, Err, ℕ, List, MatchOption, map, true, false};
ghost use Rattle.std.specs.String.{string_bytes};
ghost use Rattle.unicorn_words.specs.CommandLine.{is_taken};
ghost use Rattle.clap.specs.Words.{found_of, rows_of};
ghost use Rattle.unicorn_words.specs.Asked.{AreAsked, AreFound, AreInRange, IsParse, mode_text};

use crate::command::command;
use clap::ArgMatches;
use clap::error::ErrorKind;
use std::alloc::{AllocError, Global};
use thiserror::Error;

/// What the program is to do.
#[derive(Clone, Copy, Debug, PartialEq, Eq)]
pub enum Mode {
    /// Answers a script, round by round.
    Serve,
    /// Answers a script line by line.
    Plain,
    /// Says what is wrong with the lines of a script.
    Check,
    /// Answers a script that is made up, and counts its answers.
    Bench,
}

/// What the words of the command line ask for.
#[derive(Clone, Copy, Debug, PartialEq, Eq)]
pub struct Settings {
    /// What the program is to do. A mode that does not use an option leaves it aside.
    pub mode: Mode,
    /// How many workers share the shards of a query.
    pub workers: u32,
    /// What a script that is made up is drawn from.
    pub seed: u32,
    /// How many people a script that is made up has.
    pub people: u32,
}

/// Why words are not taken.
#[derive(Clone, Copy, Debug, PartialEq, Eq, Error)]
pub enum WordsRefusal {
    /// The program takes no such words. It takes no request for help or for the version either.
    #[error("the program takes no such words")]
    Usage,
    /// Memory ran out.
    #[error("out of memory")]
    Memory,
}

impl From<AllocError> for WordsRefusal {
    ghost use Rattle.std.specs.Prelude.{◌≡◌};
    ghost use Rattle.unicorn_words.specs.declared.words.WordsRefusal.{WordsRefusal};

    ghost from_gives = { λ _ refusal. refusal ≡ WordsRefusal.Memory };

    fn from(_: AllocError) -> WordsRefusal {
        WordsRefusal::Memory
    }
}

impl From<clap::Error> for WordsRefusal {
    ghost use Rattle.std.specs.Prelude.{◌≡◌, ◌↔◌};
    ghost use Rattle.clap.specs.Words.{kind_of};
    ghost use Rattle.clap.specs.declared.error.kind.ErrorKind.TheVariants.{OutOfMemory};
    ghost use Rattle.unicorn_words.specs.declared.words.WordsRefusal.{WordsRefusal};

    ghost from_gives = { λ error refusal.
        (refusal ≡ WordsRefusal.Memory) ↔ (kind_of error ≡ OutOfMemory) };

    fn from(error: clap::Error) -> WordsRefusal {
        match error.kind() {
            ErrorKind::OutOfMemory => WordsRefusal::Memory,
            _ => WordsRefusal::Usage,
        }
    }
}

/// Reads the words of the command line, of which the first is the program's name. Where memory runs
/// out nothing is said of the words.
pub fn read_words(alloc: Global, words: &[String]) -> Result<Settings, WordsRefusal>
    ensures taken { IfOk result (λ _. is_taken (map string_bytes words.now) ≡ true) }
    ensures asked { IfOk result (AreAsked (map string_bytes words.now)) }
    ensures ranges { IfOk result AreInRange }
    ensures usage { result ≡ Err WordsRefusal.Usage
        → is_taken (map string_bytes words.now) ≡ false }
{
    let matches = command(alloc)?.try_get_matches_from(words)?;
    Ok(settings_in(&matches))
}

// The settings in the matches of a parse.
fn settings_in(matches: &ArgMatches<'_>) -> Settings
    requires { IsParse matches.now }
    ensures found { AreFound (rows_of (found_of matches.now)) result }
    ensures ranges { AreInRange result }
{
    let name = matches.get_str("MODE").unwrap();
    Settings {
        mode: mode_named(name).unwrap(),
        workers: matches.get_one("workers").unwrap(),
        seed: matches.get_one("seed").unwrap(),
        people: matches.get_one("people").unwrap(),
    }
}

// The mode with this name.
fn mode_named(name: &str) -> Option<Mode>
    ensures { MatchOption result ((mode : Mode) → name.now ≡ mode_text mode → ⊥)
        (λ mode. name.now ≡ mode_text mode) }
{
    match name {
        "serve" => Some(Mode::Serve),
        "plain" => Some(Mode::Plain),
        "check" => Some(Mode::Check),
        "bench" => Some(Mode::Bench),
        _ => None,
    }
}
