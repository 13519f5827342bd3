ghost use Rattle.std.specs.Prelude.{◌≡◌, false, map, codes, IfOk};
ghost use Rattle.std.specs.String.{string_bytes};
ghost use Rattle.clap.specs.Words.{app_of, kind_of};
ghost use Rattle.dm_words.specs.Parts.{is_among};
ghost use Rattle.dm_words.specs.Commands.{app_with};
ghost use Rattle.dm_words.specs.Reading.{Matches, fault_by};

use crate::WordFault;
use clap::error::ErrorKind;
use clap::{Arg, ArgAction, ArgMatches, Command, Error};
use std::alloc::{AllocError, Global};

/// The argument that takes each word that isn't an option.
pub const NAMES: &str = "names";

/// Reads the words behind a command that has these options. None of them is called `names`.
pub fn matches_of<'a>(
    alloc: Global,
    options: &[&'a str],
    words: &'a [String],
) -> Result<ArgMatches<'a>, WordFault>
    requires { is_among (codes "names") (map (λ option. option.now) options.now) ≡ false }
    ensures { Matches (map (λ option. option.now) options.now) (map string_bytes words.entry.now) result }
{
    let command = command(alloc, options)?;
    match command.try_get_matches_from(words) {
        Ok(matches) => Ok(matches),
        Err(error) => Err(fault_of(&error)),
    }
}

fn command<'a>(alloc: Global, options: &[&'a str]) -> Result<Command<'a>, AllocError>
    ensures { IfOk result (λ command. app_of command ≡ app_with (map (λ option. option.now) options.now)) }
{
    let names = Arg::new(alloc, NAMES).action(ArgAction::Append);
    let mut command = Command::new(alloc, "dm")
        .no_binary_name(true)
        .disable_help_flag(true)
        .arg(names)?;
    for name in options {
        let option = Arg::new(alloc, name).long(name).action(ArgAction::Set);
        command = command.arg(option)?;
    }
    Ok(command)
}

fn fault_of(error: &Error) -> WordFault
    ensures { result ≡ fault_by (kind_of error.now) }
{
    match error.kind() {
        ErrorKind::OutOfMemory => WordFault::Memory,
        _ => WordFault::Usage,
    }
}
