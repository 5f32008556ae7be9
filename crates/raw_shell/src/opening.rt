//! The words of a call, from the arguments of the process.
use crate::failure::Failure;
use std::alloc::Global;
use std::env::Args;
use std::io;

// Why there are no words: a word that is not UTF-8 is no word of a command.
fn without_words<F>(error: &io::Error) -> Failure<F> {
    match error.kind() {
        io::ErrorKind::OutOfMemory => Failure::Memory,
        _ => Failure::Use,
    }
}

/// The words after the program's name, or why there are none.
pub fn words_of<F>(alloc: Global, args: io::Result<Args>) -> Result<Vec<String>, Failure<F>> {
    let args = match args {
        Ok(args) => args,
        Err(error) => return Err(without_words(&error)),
    };
    let mut words = Vec::new(alloc);
    for word in args.skip(1) {
        if words.push(word).is_err() {
            return Err(Failure::Memory);
        }
    }
    Ok(words)
}
