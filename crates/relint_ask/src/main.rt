//! The command `relint-ask`: the real input and the real outputs, handed to the top call.
//!
//! `main` calls [`ask_main`] with the words after the program's name, a reader over the standard input, and a [`StdSink`]
//! over each of the two outputs. It ends with the status that this returns. If the system doesn't give the words, for example
//! because one isn't UTF-8, it writes nothing and ends with status 6, or with status 5 if memory for them was refused.
//!
//! # What is proved
//!
//! All that [`ask_main`] promises holds here too, as far as the traits promise it of a real input and real outputs. `main`
//! itself has no contract: its handful of lines is all that you have to read to believe that the real outside is passed on as
//! it is.
//!
//! # Example
//!
//! ```
//! $ echo '{"ask": "spans", "first": "(a+)+b", "second": "(a+)b"}' | relint-ask
//! {"answer":"same"}
//! ```
//!
//! Read the contract of [`ask_main`] next, in `rl_ask`.
#![tactic(auto)]

use rl_ask::ask_main;
use rl_source::StdSink;
use std::io::BufReader;
use std::process::ExitCode;
use std::{env, io};

/// Returns the words after the program's name.
fn words(rt: &HostRuntime) -> io::Result<Vec<String>> {
    let words = env::args(rt)?.skip(1).collect(rt.alloc())?;
    Ok(words)
}

/// Runs the program on the real input and outputs, and returns its status.
fn status(rt: &HostRuntime) -> io::Result<u8> {
    let words = words(rt)?;
    let mut input = BufReader::new(rt.alloc(), rt.stdin())?;
    let mut out = StdSink::new(rt.stdout());
    let mut err = StdSink::new(rt.stderr());
    Ok(ask_main(rt.alloc(), &words, &mut input, &mut out, &mut err))
}

/// Ends the process with the status of the run: 5 or 6 if the words, or the buffer of the input, couldn't be had.
fn main(rt: HostRuntime) -> ExitCode {
    match status(&rt) {
        Ok(status) => ExitCode::from(status),
        Err(error) if error.kind() == io::ErrorKind::OutOfMemory => ExitCode::from(5),
        Err(_) => ExitCode::from(6),
    }
}
