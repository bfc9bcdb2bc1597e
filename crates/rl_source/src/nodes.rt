//! Paths and names, what can be at a path, and the calls of a tree. The map of a tree of files is the list of its nodes, which
//! are paths with what is there.
ghost use Rattle.std.specs.Prelude.{◌≡◌, ℕ, List, IfOk, string_bytes};

use rl_lists::{Items, OutOfMemory};
use std::alloc::{AllocError, Global};
use std::marker::Model;

/// A path, or the name of a child. Contracts see it as the list of its bytes.
#[derive(Drop)]
pub struct Name {
    text: String,
}

impl Model for Name {
    ghost Value = { List ℕ };

    ghost view = { λ n. string_bytes n.text };
}

impl Name {
    /// Returns the name with this text. No memory is allocated.
    pub fn from_string(text: String) -> Name
        ensures { result ≡ string_bytes text }
    {
        Name { text }
    }

    /// Returns the name with a copy of this text.
    ///
    /// # Errors
    /// [`OutOfMemory`] if there is no memory for the copy.
    pub fn from_text(alloc: Global, text: &str) -> Result<Name, OutOfMemory>
        ensures { IfOk result (λ name. name ≡ text.now) }
    {
        let text = String::from_str(alloc, text)?;
        Ok(Name { text })
    }

    /// Returns the text.
    pub fn as_str(&self) -> &str
        ensures { result.now ≡ self.now }
    {
        self.text.as_str()
    }

    /// Turns the name into the string of its text. No memory is allocated.
    pub fn into_string(self) -> String
        ensures { string_bytes result ≡ self }
    {
        self.text
    }
}

impl Clone for Name {
    ghost is_clone = { λ name copy. copy ≡ name };

    fn clone(&self) -> Result<Name, AllocError> {
        let text = self.text.clone()?;
        Ok(Name { text })
    }
}

/// The kind of what is at a path: a file, a folder, or anything else, such as a symbolic link, a device or a pipe.
#[derive(Clone, Copy, Debug, PartialEq, Eq)]
pub enum Kind {
    /// A file.
    File,
    /// A folder.
    Folder,
    /// Anything else.
    Other,
}

/// An entry of a folder.
#[derive(Drop)]
pub struct Child {
    /// The name of the entry, without the folder's path.
    pub name: Name,
    /// The kind of what is there.
    pub kind: Kind,
}

impl Clone for Child {
    ghost is_clone = { λ child copy. copy ≡ child };

    fn clone(&self) -> Result<Child, AllocError> {
        let name = self.name.clone()?;
        Ok(Child {
            name,
            kind: self.kind,
        })
    }
}

/// The bytes of a file.
pub type Content = Items<u8>;

/// The entries of a folder.
pub type Children = Items<Child>;

/// A list of nodes, such as the map of a tree.
pub type Nodes = Items<Node>;

/// What is at a path.
#[derive(Drop)]
pub enum Held {
    /// A file with its bytes.
    File(Content),
    /// A folder with its entries.
    Folder(Children),
    /// Anything else, such as a symbolic link.
    Other,
}

impl Held {
    ghost use Rattle.rl_source.specs.NodeMap.{kind_of};

    /// Returns the kind of what is there.
    pub fn kind(&self) -> Kind
        ensures { result ≡ kind_of self.now }
    {
        match self {
            Held::File(_) => Kind::File,
            Held::Folder(_) => Kind::Folder,
            Held::Other => Kind::Other,
        }
    }
}

/// A path, and what is there.
#[derive(Drop)]
pub struct Node {
    /// The path.
    pub path: Name,
    /// What is at the path.
    pub held: Held,
}

/// What a call of a tree asks about its path.
#[derive(Clone, Copy)]
pub enum Query {
    /// The kind of what is there.
    Kind,
    /// The children of the folder.
    Children,
    /// The first bytes of the file, at most this many.
    Read(usize),
}

/// A call of a tree that returned `Ok` or [`TreeError::Failed`](crate::TreeError::Failed).
#[derive(Drop)]
pub struct Call {
    /// What it asked, and for a read how many bytes at most.
    pub query: Query,
    /// The path that it asked about.
    pub path: Name,
    /// Whether it returned [`TreeError::Failed`](crate::TreeError::Failed).
    pub failed: bool,
}
