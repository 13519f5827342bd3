use std::alloc::Global;
use std::rt::Env;
use std::{env, io};

/// The program's arguments, without its own name. Fails where one of them is no text, and with `OutOfMemory` where
/// there is no memory left to hold them.
pub fn words<R: Env + AllocGlobal>(rt: &R) -> io::Result<Vec<String>> {
    let arguments = env::args(rt)?;
    let words = arguments.skip(1).collect(rt.alloc())?;
    Ok(words)
}
