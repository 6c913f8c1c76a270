// The words of the command line.
use std::env;
use std::io::{self, ErrorKind};
use std::rt::Env;

/// The words after the program's name. A word that isn't UTF-8 is none of any program's forms: there are then no words.
/// An error says that memory ran out.
pub fn words_of<R: Env + AllocGlobal>(rt: &R) -> io::Result<Vec<String>> {
    let words = match env::args(rt) {
        Ok(words) => words,
        Err(error) if error.kind() == ErrorKind::InvalidData => return Ok(Vec::new(rt.alloc())),
        Err(error) => return Err(error),
    };
    Ok(words.skip(1).collect(rt.alloc())?)
}
