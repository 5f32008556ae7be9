//! The program `rawlive`: it feeds a grid from input that is still open, and writes what its sinks receive as it comes.
//!
//! Everything that it does is one public call, `live_main`; `main` makes the streams and the words, and answers where it
//! cannot make the words.
#![tactic(auto)]

use raw_io::{StdSink, StdSource};
use raw_live_run::{LineFlaw, live_main};
use raw_shell::{end_with, words_of};
use raw_workers::OpenGate;
use std::process::ExitCode;
use std::{env, io};

fn main(rt: HostRuntime) -> io::Result<ExitCode> {
    let alloc = rt.alloc();
    let mut source = StdSource::new(rt.stdin());
    let mut out = StdSink::new(rt.stdout());
    let mut err = StdSink::new(rt.stderr());
    let words = match words_of::<LineFlaw>(alloc, env::args(&rt)) {
        Ok(words) => words,
        Err(failure) => return Ok(end_with(&mut err, failure)),
    };
    let status = live_main(
        &rt,
        alloc,
        &words,
        &mut source,
        &mut out,
        &mut err,
        &OpenGate,
    );
    Ok(ExitCode::from(status))
}
