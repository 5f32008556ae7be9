//! The program `rawgrid`: an emulator of a tiled processor, whose report is proved.
//!
//! Everything that it does is one public call, `raw_program`; `main` makes the streams and the words, and answers where it
//! cannot make the words.
#![tactic(auto)]

use raw_commands::{InputFlaw, raw_program};
use raw_io::{StdSink, StdSource};
use raw_shell::{Gathered, end_with, words_of};
use raw_workers::OpenGate;
use std::process::ExitCode;
use std::{env, io};

fn main(rt: HostRuntime) -> io::Result<ExitCode> {
    let alloc = rt.alloc();
    let mut source = StdSource::new(rt.stdin());
    let mut err = StdSink::new(rt.stderr());
    let words = match words_of::<InputFlaw>(alloc, env::args(&rt)) {
        Ok(words) => words,
        Err(failure) => return Ok(end_with(&mut err, failure)),
    };
    let mut out = Gathered::new(alloc, StdSink::new(rt.stdout()));
    let mut err = Gathered::new(alloc, err);
    let status = raw_program(
        &rt,
        alloc,
        &words,
        &mut source,
        &mut out,
        &mut err,
        &OpenGate,
    );
    Ok(ExitCode::from(status))
}
