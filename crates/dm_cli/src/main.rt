//! The program: `dm_plain` over the files of the folder that it runs in, its standard output, and a journal there.
#![tactic(auto)]

mod front;
mod journal;
mod shelf;
mod sink;
#[cfg(test)]
mod tests;
mod words;

use dm_top::{Status, dm_plain};
use journal::FileJournal;
use shelf::FileShelf;
use sink::FileSink;
use std::io::ErrorKind;
use std::process::ExitCode;

fn main(rt: HostRuntime) -> ExitCode {
    let alloc = rt.alloc();
    let words = match words::words(&rt) {
        Ok(words) => words,
        Err(error) if error.kind() == ErrorKind::OutOfMemory => {
            return ExitCode::from(Status::Memory.code());
        }
        // An argument that is no text is a wrong one, and so is none at all.
        Err(_) => Vec::new(alloc),
    };
    let mut shelf = FileShelf::new(&rt);
    let mut out = FileSink::new(rt.stdout());
    let journal = FileJournal::new(&rt);
    let (status, _journal) = dm_plain(alloc, &words, &mut shelf, journal, &mut out);
    ExitCode::from(status.code())
}
