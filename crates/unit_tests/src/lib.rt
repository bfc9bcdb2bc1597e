//! Unit tests for what no worked row can test, with a file for each crate. The rows are the data of the program `rows`.
//!
//! If the program calls a function whose contract says what it returns, the rows are enough to test it. So these tests are
//! few: lengths and sizes that no pattern reaches, files and outputs in memory that fail, calls that only have to be fast, and
//! functions that the program doesn't call.
#![tactic(auto)]

#[cfg(test)]
mod degree;
#[cfg(test)]
mod equiv;
#[cfg(test)]
mod graph;
#[cfg(test)]
mod lanes;
#[cfg(test)]
mod moves;
#[cfg(test)]
mod numbers;
#[cfg(test)]
mod prio;
#[cfg(test)]
mod pylex;
#[cfg(test)]
mod ranges;
#[cfg(test)]
mod report;
#[cfg(test)]
mod source;
