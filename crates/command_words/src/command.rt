ghost use Rattle.std.specs.Prelude.{◌≡◌, ◌≢◌, IfOk, IsErrOf, OnOk, false, map, string_bytes, true};
ghost use Rattle.clap.specs.Matches.{found_of};
ghost use Rattle.clap.specs.Simple.{app_of, with_rule};
ghost use Rattle.clap.specs.Values.{kind_of};
ghost use Rattle.clap.specs.Walk.{rows_of};
ghost use Rattle.command_words.specs.Command.{are_taken, flag, found_in, further_words, option, required_word, sodac_command};

use crate::OrderFail;
use clap::error::ErrorKind;
use clap::{Arg, ArgAction, ArgMatches, Command, Error};
use std::alloc::{AllocError, Global};

// The command with a flag `--name`.
fn with_flag<'a>(
    alloc: Global,
    command: Command<'a>,
    name: &'a str,
) -> Result<Command<'a>, AllocError>
    ensures { IfOk result (λ c. app_of c ≡ with_rule (app_of command.entry) (flag name.entry.now)) }
{
    let flag = Arg::new(alloc, name).long(name).action(ArgAction::SetTrue);
    command.arg(flag)
}

// The command with an option `--name VALUE`.
fn with_option<'a>(
    alloc: Global,
    command: Command<'a>,
    name: &'a str,
) -> Result<Command<'a>, AllocError>
    ensures { IfOk result (λ c. app_of c ≡ with_rule (app_of command.entry) (option name.entry.now)) }
{
    let option = Arg::new(alloc, name).long(name).action(ArgAction::Set);
    command.arg(option)
}

// The command with a positional word that must be there.
fn with_required_word<'a>(
    alloc: Global,
    command: Command<'a>,
    name: &'a str,
) -> Result<Command<'a>, AllocError>
    ensures { IfOk result (λ c. app_of c ≡ with_rule (app_of command.entry) (required_word name.entry.now)) }
{
    command.arg(Arg::new(alloc, name).required(true))
}

// The command with all further positional words.
fn with_further_words<'a>(
    alloc: Global,
    command: Command<'a>,
    name: &'a str,
) -> Result<Command<'a>, AllocError>
    ensures { IfOk result (λ c. app_of c ≡ with_rule (app_of command.entry) (further_words name.entry.now)) }
{
    let words = Arg::new(alloc, name)
        .action(ArgAction::Append)
        .num_args(0..);
    command.arg(words)
}

// The command `sodac`, as clap reads it.
fn sodac_command<'a>(alloc: Global) -> Result<Command<'a>, AllocError>
    ensures { IfOk result (λ c. app_of c ≡ sodac_command) }
{
    let share = with_flag(alloc, Command::new(alloc, "sodac"), "share")?;
    let raw = with_flag(alloc, share, "raw")?;
    let trace = with_flag(alloc, raw, "trace")?;
    let params = with_option(alloc, trace, "params")?;
    let stall = with_option(alloc, params, "stall")?;
    let mode = with_required_word(alloc, stall, "mode")?;
    with_further_words(alloc, mode, "words")
}

// Why a parse gave no matches.
fn failure(error: Error) -> OrderFail
    ensures { result ≡ OrderFail.Usage → kind_of error ≢ ErrorKind.OutOfMemory }
{
    let kind = error.kind();
    drop(error);
    match kind {
        ErrorKind::OutOfMemory => OrderFail::Memory,
        _ => OrderFail::Usage,
    }
}

/// What clap makes of the words, the first of which is the program's own name.
///
/// `Usage` where the command `sodac` doesn't take them; `Memory` where memory was refused.
pub(crate) fn parse<'a>(alloc: Global, words: &'a [String]) -> Result<ArgMatches<'a>, OrderFail>
    ensures taken { OnOk result (are_taken (map string_bytes words.now) ≡ true) }
    ensures rows { IfOk result (λ m. rows_of (found_of m) ≡ found_in (map string_bytes words.now)) }
    ensures usage { IsErrOf result OrderFail.Usage → are_taken (map string_bytes words.now) ≡ false }
{
    let command = sodac_command(alloc)?;
    match command.try_get_matches_from(words) {
        Ok(matches) => Ok(matches),
        Err(error) => Err(failure(error)),
    }
}
