//! The command `relint`: it runs the top function of `rl_lint` with the real file system and the real outputs.
//!
//! `main` makes a [`DiskTree`] for the file system and a [`StdSink`] for each of the two outputs, and calls [`relint_main`]
//! with the words after the program's name. It ends with the status that this function returns. If the system doesn't give it
//! the words, for example because one isn't UTF-8, it writes nothing and ends with status 6, or with status 5 if there isn't
//! enough memory for them.
//!
//! # What is proved
//!
//! Everything that [`relint_main`] promises holds here too, as far as the traits promise it for a real disk and real outputs.
//! `main` itself has no contract: you have to read its few lines to believe that the real disk and outputs are passed on
//! unchanged.
//!
//! # Example
//!
//! ```
//! $ relint cost 'a*' aa
//! steps 5 matched
//! ```
//!
//! Read the contract of [`relint_main`] next, in `rl_lint`.
#![tactic(auto)]

use rl_lint::relint_main;
use rl_source::{DiskTree, StdSink};
use std::process::ExitCode;
use std::{env, io};

/// Returns the words after the program's name.
fn words(rt: &HostRuntime) -> io::Result<Vec<String>> {
    let words = env::args(rt)?.skip(1).collect(rt.alloc())?;
    Ok(words)
}

fn main(rt: HostRuntime) -> ExitCode {
    match words(&rt) {
        Ok(words) => {
            let mut tree = DiskTree::new(&rt);
            let mut out = StdSink::new(rt.stdout());
            let mut err = StdSink::new(rt.stderr());
            ExitCode::from(relint_main(rt.alloc(), &words, &mut tree, &mut out, &mut err))
        }
        Err(error) if error.kind() == io::ErrorKind::OutOfMemory => ExitCode::from(5),
        Err(_) => ExitCode::from(6),
    }
}
