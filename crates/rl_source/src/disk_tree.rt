//! A tree over the file system. The fault count of a tree is the number of its calls that returned `Failed`, at most 2^64 - 1.
ghost use Rattle.std.specs.Prelude.{◌≡◌, ◌≢◌, take, Some, Ok, IfOk, IfErr, IsErrOf, IfSome, IsSomeAnd};
ghost use Rattle.std.specs.IoError.{error_kind};

use crate::nodes::{Child, Kind, Name, Query};
use crate::trees::{Tree, TreeError};
use std::fs::{DirEntry, FileType};
use std::io::{ErrorKind, Read};
use std::marker::Model;
use std::{fs, io};

/// The type of the runtime that `main` receives, through which a program reaches the file system.
pub type Runtime = HostRuntime;

/// A tree over the file system. It reveals neither its map nor its trail to contracts.
///
/// A symbolic link is of kind [`Kind::Other`], so it is neither read nor listed. A folder that contains a name that isn't
/// UTF-8 can't be listed. Every error of the system except running out of memory counts as a fault.
#[derive(Drop)]
pub struct DiskTree<'r> {
    /// The runtime through which the file system is reached.
    rt: &'r Runtime,
    /// The number of calls that failed, at most 2^64 - 1.
    faults: u64,
}

impl<'r> Model for DiskTree<'r> {
    ghost use Rattle.std.specs.Prelude.{ℕ};

    // The number of faults
    ghost Value = { ℕ };

    ghost view = { λ t. t.faults };
}

impl<'r> DiskTree<'r> {
    ghost use Rattle.rl_source.specs.Asked.{HasTreeCause, CountsFailed};

    /// Returns a tree over the file system that this runtime can reach. Its fault count is 0.
    pub fn new(rt: &'r Runtime) -> DiskTree<'r>
        ensures { result ≡ 0 }
    {
        DiskTree { rt, faults: 0 }
    }

    /// Turns the answer of the system into that of a call, and counts a fault if there was one.
    fn settle<T: Drop>(&mut self, answer: io::Result<T>) -> Result<T, TreeError>
        ensures ok { IfOk answer (λ value. result ≡ Ok value) }
        ensures failed { IfErr answer
            (λ e. error_kind e ≢ ErrorKind.OutOfMemory → IsErrOf result TreeError.Failed) }
        ensures memory { IfErr answer
            (λ e. error_kind e ≡ ErrorKind.OutOfMemory → IsErrOf result TreeError.OutOfMemory) }
        ensures cause { HasTreeCause self.old self.new result }
        ensures counts { CountsFailed self.old self.new result }
    {
        match answer {
            Ok(value) => Ok(value),
            Err(error) if error.kind() == ErrorKind::OutOfMemory => Err(TreeError::OutOfMemory),
            Err(_) => {
                self.faults = self.faults.saturating_add(1);
                Err(TreeError::Failed)
            }
        }
    }
}

impl<'r> Tree for DiskTree<'r> {
    ghost use Rattle.rl_source.specs.Revealed.{after, reveals_nothing};
    ghost use Rattle.rl_source.specs.Asked.{noted, HasTreeCause, CountsFailed};
    ghost use Rattle.rl_source.specs.NodeMap.{kind_at, children_at, bytes_at};
    ghost use Rattle.rl_source.specs.Distinct.{Lists};

    ghost told = { reveals_nothing };

    ghost fault_count = { λ t. t };

    fn faults(&self) -> u64 {
        self.faults
    }

    fn kind(&mut self, path: &str) -> Result<Kind, TreeError>
        ensures told { reveals_nothing self.new ≡ after (noted Query.Kind path.now result) (reveals_nothing self.old) }
        ensures answer { IfOk result (λ found. IfSome (reveals_nothing self.old)
            (λ t. kind_at t.nodes path.now ≡ Some found)) }
        ensures cause { HasTreeCause self.old self.new result }
        ensures counts { CountsFailed self.old self.new result }
    {
        let found = kind_on_disk(self.rt, path);
        self.settle(found)
    }

    fn children(&mut self, path: &str) -> Result<Vec<Child>, TreeError>
        ensures told { reveals_nothing self.new ≡ after (noted Query.Children path.now result) (reveals_nothing self.old) }
        ensures answer { IfOk result (λ found. IfSome (reveals_nothing self.old)
            (λ t. IsSomeAnd (children_at t.nodes path.now) (λ children. Lists children found.items))) }
        ensures cause { HasTreeCause self.old self.new result }
        ensures counts { CountsFailed self.old self.new result }
    {
        let children = children_on_disk(self.rt, path);
        self.settle(children)
    }

    fn read(&mut self, path: &str, at_most: usize) -> Result<Vec<u8>, TreeError>
        ensures told { reveals_nothing self.new ≡ after (noted (Query.Read at_most) path.now result) (reveals_nothing self.old) }
        ensures answer { IfOk result (λ bytes. IfSome (reveals_nothing self.old)
            (λ t. IsSomeAnd (bytes_at t.nodes path.now) (λ content. bytes.items ≡ take at_most content))) }
        ensures cause { HasTreeCause self.old self.new result }
        ensures counts { CountsFailed self.old self.new result }
    {
        let bytes = bytes_on_disk(self.rt, path, at_most);
        self.settle(bytes)
    }
}

/// Returns the kind that belongs to a file type. Only plain files and folders have a kind of their own.
fn kind_of(found: FileType) -> Kind {
    if found.is_file() {
        Kind::File
    } else if found.is_dir() {
        Kind::Folder
    } else {
        Kind::Other
    }
}

/// Returns the kind of what is at a path. Doesn't follow a symbolic link.
fn kind_on_disk(rt: &Runtime, path: &str) -> io::Result<Kind> {
    Ok(kind_of(fs::symlink_metadata(rt, path)?.file_type()))
}

/// Returns the entry as a child of its folder.
fn child_of(rt: &Runtime, entry: &DirEntry) -> io::Result<Child> {
    let name = String::from_str(rt.alloc(), entry.file_name())?;
    match entry.file_type() {
        Ok(found) => Ok(Child {
            name: Name::from_string(name),
            kind: kind_of(found),
        }),
        Err(error) => {
            drop(name);
            Err(error)
        }
    }
}

/// Appends an entry of the listing to the children.
fn add_entry(
    rt: &Runtime,
    entry: io::Result<DirEntry>,
    children: &mut Vec<Child>,
) -> io::Result<()> {
    let entry = entry?;
    let child = child_of(rt, &entry);
    drop(entry);
    children.push(child?)?;
    Ok(())
}

/// Appends the entries of a folder to the children.
fn list_folder(rt: &Runtime, path: &str, children: &mut Vec<Child>) -> io::Result<()> {
    for entry in fs::read_dir(rt, path)? {
        add_entry(rt, entry, children)?;
    }
    Ok(())
}

/// Returns the children of the folder at a path.
fn children_on_disk(rt: &Runtime, path: &str) -> io::Result<Vec<Child>> {
    if kind_on_disk(rt, path)? != Kind::Folder {
        return Err(io::Error::from(ErrorKind::NotADirectory));
    }
    let mut children = Vec::new(rt.alloc());
    match list_folder(rt, path, &mut children) {
        Ok(()) => Ok(children),
        Err(error) => {
            drop(children);
            Err(error)
        }
    }
}

/// Returns how much room to reserve for reading at most `at_most` bytes of a file with this length. There is room for one
/// byte more, so that the read that finds the end of the file needs no further memory.
fn room_for(length: u64, at_most: usize) -> usize {
    (length.min(at_most as u64) as usize).saturating_add(1)
}

/// Appends the first `at_most` bytes of a file to the bytes, or all of them if there are fewer.
fn add_bytes(rt: &Runtime, path: &str, at_most: usize, bytes: &mut Vec<u8>) -> io::Result<()> {
    let file = fs::open(rt, path)?;
    file.take(at_most as u64).read_to_end(bytes)?;
    Ok(())
}

/// Returns the first `at_most` bytes of the plain file at a path.
fn bytes_on_disk(rt: &Runtime, path: &str, at_most: usize) -> io::Result<Vec<u8>> {
    let found = fs::symlink_metadata(rt, path)?;
    if kind_of(found.file_type()) != Kind::File {
        return Err(io::Error::from(ErrorKind::InvalidInput));
    }
    let mut bytes = Vec::with_capacity(rt.alloc(), room_for(found.len(), at_most))?;
    match add_bytes(rt, path, at_most, &mut bytes) {
        Ok(()) => Ok(bytes),
        Err(error) => {
            drop(bytes);
            Err(error)
        }
    }
}
