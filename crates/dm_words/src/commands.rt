ghost use Rattle.std.specs.Prelude.{◌≡◌, [], map, codes, IfOk, ok_or, unwrap_or};
ghost use Rattle.std.specs.Option.{option_copied, option_map};
ghost use Rattle.std.specs.String.{string_bytes};
ghost use Rattle.std.specs.Str.{IsUtf8};
ghost use Rattle.std.specs.List.{All};
ghost use Rattle.clap.specs.Words.{found_of, first_value};
ghost use Rattle.dm_list.specs.Answer.{Answers};
ghost use Rattle.dm_words.specs.Words.{order_of, load_of, check_task_of, run_of, show_of, gen_of, only_name, optional_number, files_of, is_memory};

use crate::matching::{NAMES, matches_of};
use crate::numbers::number_in;
use crate::{Order, WordFault};
use clap::ArgMatches;
use dm_list::{Bytes, Sequence};
use std::alloc::{AllocError, Global};

/// Reads the words behind the program's name.
pub fn read_words(alloc: Global, words: &[String]) -> Result<Order, WordFault>
    ensures order { Answers is_memory result (ok_or (order_of (map string_bytes words.now)) WordFault.Usage) }
    ensures text { IfOk result (λ order. All IsUtf8 (files_of order)) }
{
    let [command, words @ ..] = words else {
        return Err(WordFault::Usage);
    };
    match command.as_str() {
        "load" => load(alloc, words),
        "check-task" => check_task(alloc, words),
        "run" => run(alloc, words),
        "show" => show(alloc, words),
        "gen" => generate(alloc, words),
        _ => Err(WordFault::Usage),
    }
}

fn load(alloc: Global, words: &[String]) -> Result<Order, WordFault>
    ensures { Answers is_memory result (ok_or (load_of (map string_bytes words.now)) WordFault.Usage) }
{
    let matches = matches_of(alloc, &[], words)?;
    let Some(names) = matches.get_strs(NAMES) else {
        return Err(WordFault::Usage);
    };
    if names.is_empty() || names.len() > 64 {
        return Err(WordFault::Usage);
    }
    Ok(Order::Load {
        files: all_bytes(alloc, names)?,
    })
}

fn check_task(alloc: Global, words: &[String]) -> Result<Order, WordFault>
    ensures { Answers is_memory result (ok_or (check_task_of (map string_bytes words.now)) WordFault.Usage) }
{
    let matches = matches_of(alloc, &[], words)?;
    let Some(name) = only_name(matches.get_strs(NAMES)) else {
        return Err(WordFault::Usage);
    };
    Ok(Order::CheckTask {
        file: bytes(alloc, name)?,
    })
}

fn run(alloc: Global, words: &[String]) -> Result<Order, WordFault>
    ensures { Answers is_memory result (ok_or (run_of (map string_bytes words.now)) WordFault.Usage) }
{
    let matches = matches_of(alloc, &["limit", "workers", "stop-after"], words)?;
    let Some(name) = only_name(matches.get_strs(NAMES)) else {
        return Err(WordFault::Usage);
    };
    let limit = optional_number(&matches, "limit", 0, u32::MAX)?;
    let workers = workers(&matches)?;
    let stop_after = optional_number(&matches, "stop-after", 1, u32::MAX)?;
    Ok(Order::Run {
        file: bytes(alloc, name)?,
        limit,
        workers,
        stop_after,
    })
}

fn show(alloc: Global, words: &[String]) -> Result<Order, WordFault>
    ensures { Answers is_memory result (ok_or (show_of (map string_bytes words.now)) WordFault.Usage) }
{
    let matches = matches_of(alloc, &[], words)?;
    match matches.get_strs(NAMES) {
        Some(names) if !names.is_empty() => Err(WordFault::Usage),
        _ => Ok(Order::Show),
    }
}

fn generate(alloc: Global, words: &[String]) -> Result<Order, WordFault>
    ensures { Answers is_memory result (ok_or (gen_of (map string_bytes words.now)) WordFault.Usage) }
{
    let matches = matches_of(alloc, &["workers"], words)?;
    let Some(name) = only_name(matches.get_strs(NAMES)) else {
        return Err(WordFault::Usage);
    };
    let Some(number) = number_in(0, u32::MAX, name.as_bytes()) else {
        return Err(WordFault::Usage);
    };
    let workers = workers(&matches)?;
    Ok(Order::Gen { number, workers })
}

/// The one name, where there is exactly one.
fn only_name<'a>(names: Option<&[&'a str]>) -> Option<&'a str>
    ensures { option_copied result ≡ only_name (unwrap_or (option_map (λ list. map (λ name. name.now) list.now) names.entry) []) }
{
    match names {
        Some([name]) => Some(*name),
        _ => None,
    }
}

/// How many workers are given, if it is said.
fn workers(matches: &ArgMatches<'_>) -> Result<Option<u32>, WordFault>
    ensures { result ≡ ok_or (optional_number 1 32 (first_value (found_of matches.now) (codes "workers"))) WordFault.Usage }
{
    optional_number(matches, "workers", 1, 32)
}

/// The number that is given for an option, if one is.
fn optional_number(
    matches: &ArgMatches<'_>,
    option: &str,
    least: u32,
    most: u32,
) -> Result<Option<u32>, WordFault>
    ensures { result ≡ ok_or (optional_number least most (first_value (found_of matches.now) option.now)) WordFault.Usage }
{
    match matches.get_str(option) {
        None => Ok(None),
        Some(text) => match number_in(least, most, text.as_bytes()) {
            Some(number) => Ok(Some(number)),
            None => Err(WordFault::Usage),
        },
    }
}

fn bytes(alloc: Global, text: &str) -> Result<Bytes, AllocError>
    ensures { IfOk result (λ bytes. bytes ≡ text.now) }
{
    Ok(Sequence::new(text.as_bytes().to_vec(alloc)?))
}

fn all_bytes(alloc: Global, texts: &[&str]) -> Result<Sequence<Bytes>, AllocError>
    ensures { IfOk result (λ files. files ≡ map (λ text. text.now) texts.now) }
{
    let mut files = Vec::with_capacity(alloc, texts.len())?;
    for text in texts {
        files.push(bytes(alloc, text)?)?;
    }
    Ok(Sequence::new(files))
}
