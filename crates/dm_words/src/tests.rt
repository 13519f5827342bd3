use crate::{Order, WordFault, read_words};
use dm_list::Bytes;
use std::alloc::{AllocError, Global};

/// Words, and behind `=>` what is read of them. A blank ends each word, and `''` is the empty word.
const READINGS: &str = "=> usage
load => usage
load a => load a
load -- -x.sql => load -x.sql
load a -- b -- => load a b --
load - => load -
load '' => load ''
load -a => usage
check-task t => check-task t
check-task two.toml --limit 3 => usage
check-task => usage
run t => run t
run t --limit 0 => run t limit 0
run --limit=4294967295 t --workers 32 => run t limit 4294967295 workers 32
run --workers 1 -- t => run t workers 1
run t --limit 4294967296 => usage
--limit 5 run t => usage
run t --limit => usage
run t --limit --workers 3 => usage
run t --limit=5 --limit=6 => usage
run t --limit - => usage
run t --lim 5 => usage
run t -l 5 => usage
run t --help => usage
run t -h => usage
--help => usage
help => usage
run t --stop-after 0 => usage
run t --stop-after 1 => run t stop-after 1
run t --workers 0 => usage
run t --workers 33 => usage
run t --limit +5 => usage
run t --limit= => usage
run t --limit '' => usage
run t --limit 0000000005 => run t limit 5
run t --limit 00000000005 => usage
run t --names a => usage
show => show
show x => usage
gen 7 --workers 8 => gen 7 workers 8
gen -- 7 => gen 7
gen x => usage
gen 4294967295 => gen 4294967295
gen 4294967296 => usage
gen 7 --limit 3 => usage
run t u => usage
run -- --limit => run --limit
";

fn words_of(alloc: Global, text: &str) -> Result<Vec<String>, AllocError> {
    let mut words = Vec::new(alloc);
    for word in text.split(' ') {
        match word {
            "" => {}
            "''" => words.push(String::new(alloc))?,
            _ => words.push(String::from_str(alloc, word)?)?,
        }
    }
    Ok(words)
}

fn push_name(out: &mut Vec<u8>, name: &Bytes) -> Result<(), AllocError> {
    out.push(b' ')?;
    if name.is_empty() {
        out.extend_from_slice(b"''")
    } else {
        out.extend_from_slice(name.as_slice())
    }
}

fn push_number(out: &mut Vec<u8>, alloc: Global, number: u32) -> Result<(), AllocError> {
    let text = format!(in alloc; " {number}")?;
    out.extend_from_slice(text.as_bytes())
}

fn push_option(
    out: &mut Vec<u8>,
    alloc: Global,
    option: &[u8],
    number: Option<u32>,
) -> Result<(), AllocError> {
    match number {
        None => Ok(()),
        Some(number) => {
            out.extend_from_slice(option)?;
            push_number(out, alloc, number)
        }
    }
}

fn push_order(out: &mut Vec<u8>, alloc: Global, order: &Order) -> Result<(), AllocError> {
    match order {
        Order::Load { files } => {
            out.extend_from_slice(b"load")?;
            for file in files.as_slice() {
                push_name(out, file)?;
            }
            Ok(())
        }
        Order::CheckTask { file } => {
            out.extend_from_slice(b"check-task")?;
            push_name(out, file)
        }
        Order::Run {
            file,
            limit,
            workers,
            stop_after,
        } => {
            out.extend_from_slice(b"run")?;
            push_name(out, file)?;
            push_option(out, alloc, b" limit", *limit)?;
            push_option(out, alloc, b" workers", *workers)?;
            push_option(out, alloc, b" stop-after", *stop_after)
        }
        Order::Show => out.extend_from_slice(b"show"),
        Order::Gen { number, workers } => {
            out.extend_from_slice(b"gen")?;
            push_number(out, alloc, *number)?;
            push_option(out, alloc, b" workers", *workers)
        }
    }
}

fn push_read(out: &mut Vec<u8>, alloc: Global, words: &str) -> Result<(), AllocError> {
    let words = words_of(alloc, words)?;
    match read_words(alloc, words.as_slice()) {
        Ok(order) => push_order(out, alloc, &order),
        Err(WordFault::Usage) => out.extend_from_slice(b"usage"),
        Err(WordFault::Memory) => out.extend_from_slice(b"memory"),
    }
}

/// The words that a line gives.
fn words_in(line: &str) -> &str {
    match line.split_once("=> ") {
        Some((words, _)) => words,
        None => line,
    }
}

fn push_line(out: &mut Vec<u8>, alloc: Global, words: &str) -> Result<(), AllocError> {
    out.extend_from_slice(words.as_bytes())?;
    out.extend_from_slice(b"=> ")?;
    push_read(out, alloc, words)?;
    out.push(b'\n')?;
    Ok(())
}

fn readings(alloc: Global) -> Result<Vec<u8>, AllocError> {
    let mut out = Vec::new(alloc);
    for line in READINGS.lines() {
        push_line(&mut out, alloc, words_in(line))?;
    }
    Ok(out)
}

#[test]
fn reads_words(rt: HostRuntime) -> Result<(), AllocError> {
    let found = readings(rt.alloc())?;
    assert_eq!(rt; found.as_slice(), READINGS.as_bytes());
    Ok(())
}

/// How many files are read of `load` and so many names.
fn files_read(alloc: Global, names: u32) -> Result<Option<u64>, AllocError> {
    let mut words = Vec::new(alloc);
    words.push(String::from_str(alloc, "load")?)?;
    for _ in 0..names {
        words.push(String::from_str(alloc, "a")?)?;
    }
    match read_words(alloc, words.as_slice()) {
        Ok(Order::Load { files }) => Ok(Some(files.len())),
        _ => Ok(None),
    }
}

#[test]
fn reads_at_most_64_names(rt: HostRuntime) -> Result<(), AllocError> {
    assert_eq!(rt; files_read(rt.alloc(), 64)?, Some(64));
    assert_eq!(rt; files_read(rt.alloc(), 65)?, None);
    Ok(())
}
