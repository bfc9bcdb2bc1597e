//! A call of the program with a tree and sinks in memory.

use crate::failure::Failure;
use crate::program::Program;
use crate::row::{Faults, Writes, no_faults};
use crate::tree::Places;
use rl_source::{MemSink, MemTree, Tree};
use std::alloc::Global;

// The number of bytes that an output may hold.
const ROOM: usize = 1_000_000;

/// The answer of a call of the program.
#[derive(Drop)]
pub struct Answer {
    /// The status with which the call ended.
    pub status: u8,
    /// What it wrote to standard output. Once it has 1,000,000 bytes, every further write fails.
    pub out: MemSink,
    /// What it wrote to standard error. Once it has 1,000,000 bytes, every further write fails.
    pub err: MemSink,
    /// The number of calls of the tree that failed.
    pub tree_faults: u64,
}

/// Returns the tree of these files, as these words find them; the calls with the numbers in `failing` fail.
fn tree_of(
    alloc: Global,
    words: &Vec<String>,
    places: &Places,
    failing: &Vec<u64>,
) -> Result<MemTree, Failure> {
    let failing = failing.clone()?;
    let nodes = places.nodes(words)?;
    Ok(MemTree::new(alloc, nodes, failing)?)
}

/// Returns an empty output with these faults.
fn sink_of(alloc: Global, writes: &Writes) -> Result<MemSink, Failure> {
    let failing = writes.failing.clone()?;
    Ok(MemSink::new(alloc, writes.step.max(1), ROOM, failing)?)
}

/// Returns two empty outputs with these faults.
fn sinks_of(alloc: Global, out: &Writes, err: &Writes) -> Result<(MemSink, MemSink), Failure> {
    let out = sink_of(alloc, out)?;
    let err = sink_of(alloc, err)?;
    Ok((out, err))
}

/// Calls the program with this tree and these outputs, and returns the answer.
fn answer_over<P: Program>(
    alloc: Global,
    program: &P,
    words: &Vec<String>,
    mut tree: MemTree,
    mut out: MemSink,
    mut err: MemSink,
) -> Answer {
    let status = program.run(alloc, words, &mut tree, &mut out, &mut err);
    let tree_faults = tree.faults();
    Answer {
        status,
        out,
        err,
        tree_faults,
    }
}

/// Calls the program with these words, with these files, and with the faults of `faults`, except that the faults of standard
/// output are those of `out` and not those of `faults.out`. Returns the answer. Fails only if memory runs out.
pub fn answer_with<P: Program>(
    alloc: Global,
    program: &P,
    words: &Vec<String>,
    places: &Places,
    faults: &Faults,
    out: &Writes,
) -> Result<Answer, Failure> {
    let tree = tree_of(alloc, words, places, &faults.tree)?;
    let (out, err) = sinks_of(alloc, out, &faults.err)?;
    Ok(answer_over(alloc, program, words, tree, out, err))
}

/// Calls the program with these words, these files and these faults, and returns the answer. Fails only if memory runs out.
pub fn answer_to<P: Program>(
    alloc: Global,
    program: &P,
    words: &Vec<String>,
    places: &Places,
    faults: &Faults,
) -> Result<Answer, Failure> {
    answer_with(alloc, program, words, places, faults, &faults.out)
}

/// Calls the program with these words and these files, with no call and no write that fails, and returns the answer. Fails
/// only if memory runs out.
pub fn plain_answer_to<P: Program>(
    alloc: Global,
    program: &P,
    words: &Vec<String>,
    places: &Places,
) -> Result<Answer, Failure> {
    let faults = no_faults(alloc);
    answer_to(alloc, program, words, places, &faults)
}
