//! The program that the rows call.

use rl_source::{MemSink, MemTree};
use std::alloc::Global;

/// A program that is called with words and works on a tree and two outputs in memory.
pub trait Program {
    /// Runs the program with these words, which come after its name, and returns its status. It reads `tree` and writes to
    /// `out` and `err`.
    fn run(
        &self,
        alloc: Global,
        words: &Vec<String>,
        tree: &mut MemTree,
        out: &mut MemSink,
        err: &mut MemSink,
    ) -> u8;
}
