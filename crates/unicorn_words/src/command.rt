//! The command that the words are parsed by.
ghost use Rattle.std.specs.Prelude.{◌≡◌, IfOk, false};
ghost use Rattle.clap.specs.Words.{rule_of};
ghost use Rattle.unicorn_words.specs.CommandLine.{IsUnicorn, number_option};

use clap::builder::ValueParser;
use clap::{Arg, ArgAction, Command, value_parser};
use std::alloc::{AllocError, Global};

static MODES: [&str; 4] = ["serve", "plain", "check", "bench"];

/// `unicorn`, with its mode and its options.
pub(crate) fn command<'a>(alloc: Global) -> Result<Command<'a>, AllocError>
    ensures { IfOk result IsUnicorn }
{
    let mode = Arg::new(alloc, "MODE")
        .action(ArgAction::Set)
        .required(true)
        .value_parser(MODES.as_slice());
    let workers = number_option(alloc, "workers", value_parser!(u32).range(1..=64), "4");
    let seed = number_option(alloc, "seed", value_parser!(u32).range(1..=2147483646), "1");
    let people = number_option(
        alloc,
        "people",
        value_parser!(u32).range(2..=100000),
        "1000",
    );
    Command::new(alloc, "unicorn")
        .version("0.1.0")
        .arg(mode)?
        .arg(workers)?
        .arg(seed)?
        .arg(people)
}

// The option `--name N`, a number that the parser takes.
fn number_option<'a>(
    alloc: Global,
    name: &'a str,
    range: ValueParser<'a>,
    default: &'a str,
) -> Arg<'a>
    ensures rule { rule_of result ≡ number_option name.entry.now range.entry default.entry.now }
    ensures local { result.global ≡ false }
{
    Arg::new(alloc, name)
        .long(name)
        .action(ArgAction::Set)
        .value_parser(range)
        .default_value(default)
}
