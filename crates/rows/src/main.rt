//! Runs the worked rows with files and outputs in memory.
//!
//! The rows are in the `*.toml` files of the current folder; the `README.md` beside them explains what a row contains. The
//! program prints a line for each row that can't be read or whose answer is wrong, and at the end the number of rows that
//! fail. It writes the number of rows that were run to standard error. Its status is 0 if no row fails, 1 if a row fails or
//! there are no rows, and 2 if the files can't be read.
#![tactic(auto)]

use rl_lint::relint_main;
use rl_source::{MemSink, MemTree};
use std::alloc::Global;
use std::collections::BTreeSet;
use std::process::ExitCode;
use std::{fs, io};
use toml::Value;
use toml::value::Array;
use worked_rows::{Failure, Program, judge_value, name_of, values_of};

/// The system that the program runs on.
type Runtime = HostRuntime;

/// The program `relint`.
struct Relint;

impl Program for Relint {
    fn run(
        &self,
        alloc: Global,
        words: &Vec<String>,
        tree: &mut MemTree,
        out: &mut MemSink,
        err: &mut MemSink,
    ) -> u8 {
        relint_main(alloc, words, tree, out, err)
    }
}

/// The number of rows so far, the number of them that failed, and their names.
#[derive(Drop)]
struct Tally {
    rows: u64,
    failed: u64,
    names: BTreeSet<String>,
}

impl Tally {
    /// Returns a tally without rows.
    fn new(rt: &Runtime) -> Tally {
        Tally {
            rows: 0,
            failed: 0,
            names: BTreeSet::new(rt.alloc()),
        }
    }

    /// Prints why a row or a whole file fails.
    fn fail(&mut self, rt: &Runtime, place: &str, failure: &Failure) -> io::Result<()> {
        self.failed = self.failed.saturating_add(1);
        println!(rt; "{place}: {failure}")
    }

    /// Runs a row and, if it fails, prints why.
    fn tell_row(
        &mut self,
        rt: &Runtime,
        file: &str,
        place: usize,
        value: &Value,
    ) -> io::Result<()> {
        self.rows = self.rows.saturating_add(1);
        match judge_value(rt.alloc(), &Relint, &mut self.names, value) {
            Ok(()) => Ok(()),
            Err(failure) => {
                let name = name_of(rt.alloc(), file, place, value)?;
                self.fail(rt, name.as_str(), &failure)
            }
        }
    }

    /// Runs the rows of a file.
    fn run_values(&mut self, rt: &Runtime, file: &str, values: &Array) -> io::Result<()> {
        for (place, value) in values.iter().enumerate() {
            self.tell_row(rt, file, place, value)?;
        }
        Ok(())
    }

    /// Runs the rows of a file with this text.
    fn run_file(&mut self, rt: &Runtime, file: &str, text: &str) -> io::Result<()> {
        match values_of(rt.alloc(), text) {
            Ok(values) => self.run_values(rt, file, &values),
            Err(failure) => self.fail(rt, file, &failure),
        }
    }
}

/// Adds the name of a file if the file contains rows.
fn add_file_name(rt: &Runtime, name: &str, names: &mut Vec<String>) -> io::Result<()> {
    if name.ends_with(".toml") {
        let name = String::from_str(rt.alloc(), name)?;
        names.push(name)?;
    }
    Ok(())
}

/// Adds the names of the files with rows in the current folder.
fn add_file_names(rt: &Runtime, names: &mut Vec<String>) -> io::Result<()> {
    for entry in fs::read_dir(rt, ".")? {
        let entry = entry?;
        add_file_name(rt, entry.file_name(), names)?;
    }
    Ok(())
}

/// Returns the names of the files with rows, in order.
fn file_names(rt: &Runtime) -> io::Result<Vec<String>> {
    let mut names = Vec::new(rt.alloc());
    add_file_names(rt, &mut names)?;
    names.sort()?;
    Ok(names)
}

/// Reads a file and runs its rows.
fn run_named(rt: &Runtime, name: &str, tally: &mut Tally) -> io::Result<()> {
    let text = fs::read_to_string(rt, name)?;
    tally.run_file(rt, name, text.as_str())
}

/// Runs the rows of these files, and returns the tally.
fn run_files(rt: &Runtime, names: &Vec<String>) -> io::Result<Tally> {
    let mut tally = Tally::new(rt);
    for name in names {
        run_named(rt, name.as_str(), &mut tally)?;
    }
    Ok(tally)
}

/// Prints the counts. Returns whether there were rows and none of them failed.
fn report(rt: &Runtime, tally: &Tally) -> io::Result<bool> {
    let Tally { rows, failed, .. } = tally;
    eprintln!(rt; "{rows} rows were run")?;
    println!(rt; "{failed} rows fail")?;
    Ok(*rows > 0 && *failed == 0)
}

/// Runs the rows of the current folder. Returns whether there were rows and none of them failed.
fn run(rt: &Runtime) -> io::Result<bool> {
    let names = file_names(rt)?;
    let tally = run_files(rt, &names)?;
    report(rt, &tally)
}

fn main(rt: HostRuntime) -> ExitCode {
    match run(&rt) {
        Ok(true) => ExitCode::from(0),
        Ok(false) => ExitCode::from(1),
        Err(error) => {
            let _ = eprintln!(rt; "rows: {error}");
            ExitCode::from(2)
        }
    }
}
