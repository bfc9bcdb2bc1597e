//! A worked row, as its file defines it. The `README.md` beside the files explains each field.

use std::alloc::Global;

/// A worked row.
#[derive(Drop)]
pub struct Row<'a> {
    /// The name, which no other row has.
    pub name: &'a str,
    /// The words after the program's name.
    pub words: Vec<String>,
    /// The files that the call finds.
    pub setting: Setting<'a>,
    /// The calls that are made with the words.
    pub calls: Calls,
    /// The calls and writes that fail.
    pub faults: Faults,
    /// What the call must answer.
    pub expected: Expected<'a>,
}

/// The files that the row's call finds.
#[derive(Drop)]
pub struct Setting<'a> {
    /// The files that are there at first.
    pub files: Vec<Placed<'a>>,
    /// The calls that come before the row's own, and become files.
    pub before: Vec<Saved<'a>>,
    /// The files that are written after the calls of `before`.
    pub then: Vec<Placed<'a>>,
}

/// A path, and what is there.
#[derive(Drop)]
pub struct Placed<'a> {
    /// The path, as the row spells it.
    pub path: &'a String,
    /// What is there.
    pub file: File,
}

/// What is at a path: a file with its bytes, a folder, or something else.
#[derive(Drop)]
pub enum File {
    /// A file with these bytes.
    Holds(Vec<u8>),
    /// A folder.
    Folder,
    /// Something that is neither a file nor a folder. A row says so with the key `link`.
    Link,
}

/// A call that comes before the row's own and has no faults. Its standard output becomes a file. The row fails if its status is
/// above 1.
#[derive(Drop)]
pub struct Saved<'a> {
    /// The words after the program's name.
    pub words: Vec<String>,
    /// The path of the file.
    pub save: &'a String,
}

/// The calls that are made with the row's words.
#[derive(Clone, Copy)]
pub enum Calls {
    /// One call.
    One,
    /// Two calls, which must write the same.
    Same,
    /// A call of `prove`, and a call of `verify` with the certificate that it wrote.
    Verified,
    /// One call without faults, which must write at least 100 bytes, and then one call for each of these bytes, in which the
    /// write of that byte fails.
    EachWrite,
}

/// Which calls of the file system fail, and what happens to the writes to each output.
#[derive(Drop)]
pub struct Faults {
    /// The numbers of the calls of the file system that fail, counted from 1.
    pub tree: Vec<u64>,
    /// The writes to standard output.
    pub out: Writes,
    /// The writes to standard error.
    pub err: Writes,
}

/// The writes to an output that fail, and the number of bytes that a write takes at most.
#[derive(Drop)]
pub struct Writes {
    /// The numbers of the writes that fail, counted from 1.
    pub failing: Vec<u64>,
    /// The most bytes that a write takes. 0 counts as 1.
    pub step: usize,
}

/// What the row's call must answer.
#[derive(Drop)]
pub struct Expected<'a> {
    /// The expected standard output, as far as `form` requires it.
    pub stdout: Vec<u8>,
    /// How standard output is compared with `stdout`.
    pub form: Form<'a>,
    /// The families whose lines standard output contains, if that is its form.
    pub families: Vec<Printed<'a>>,
    /// The expected standard error.
    pub stderr: Vec<u8>,
    /// The expected status.
    pub status: u8,
    /// The expected number of failed calls of the file system, if the row names one.
    pub tree_faults: Option<u64>,
}

/// How standard output is compared.
#[derive(Clone, Copy)]
pub enum Form<'a> {
    /// It must be these bytes.
    Plain,
    /// It must be one line that begins with this text.
    Begins(&'a String),
    /// It must be the bytes followed by the family that `class` shows. The texts of the family are tried up to this number.
    WithFamily(u64),
    /// It must be the bytes with the lines of families among them.
    WithFamilies,
}

/// The pattern and the mode that a family belongs to. The line of the family is in the output.
#[derive(Clone, Copy)]
pub struct Printed<'a> {
    /// The pattern that the family belongs to.
    pub pattern: &'a str,
    /// The mode in which the pattern is matched.
    pub mode: &'a str,
}

/// Returns faults of an output in which no write fails and each takes all that it is given.
fn all_written(alloc: Global) -> Writes {
    Writes {
        failing: Vec::new(alloc),
        step: usize::MAX,
    }
}

/// Returns faults in which no call and no write fails, and each write takes all of its bytes.
pub fn no_faults(alloc: Global) -> Faults {
    Faults {
        tree: Vec::new(alloc),
        out: all_written(alloc),
        err: all_written(alloc),
    }
}

/// Returns the expectation that nothing is written and nothing fails.
fn nothing_expected<'a>(alloc: Global) -> Expected<'a> {
    Expected {
        stdout: Vec::new(alloc),
        form: Form::Plain,
        families: Vec::new(alloc),
        stderr: Vec::new(alloc),
        status: 0,
        tree_faults: None,
    }
}

/// Returns a row in which no field is set: its texts and lists are empty, it expects the status 0, and no call and no write
/// fails.
pub fn empty_row<'a>(alloc: Global) -> Row<'a> {
    Row {
        name: "",
        words: Vec::new(alloc),
        setting: Setting {
            files: Vec::new(alloc),
            before: Vec::new(alloc),
            then: Vec::new(alloc),
        },
        calls: Calls::One,
        faults: no_faults(alloc),
        expected: nothing_expected(alloc),
    }
}
