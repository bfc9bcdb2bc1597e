//! The files of a row, as a tree in memory.

use crate::row::{File, Placed};
use rl_lists::OutOfMemory;
use rl_source::{Child, Children, Content, Held, Kind, Name, Node, Nodes};
use std::alloc::Global;
use std::collections::BTreeMap;

// The folder in which the row is run.
const TOP: &str = ".";

/// Files by their paths.
type Files = BTreeMap<String, File>;

/// The folder in which a row is run, with the files and folders in it.
#[derive(Drop)]
pub struct Places {
    /// The allocator of the paths and bytes.
    alloc: Global,
    /// What is at each path.
    files: Files,
}

/// A path, and what is there.
#[derive(Clone, Copy)]
struct Place<'a> {
    path: &'a str,
    file: &'a File,
}

/// Places by the spellings of their paths.
type Spellings<'a> = BTreeMap<String, Place<'a>>;

impl Place<'_> {
    /// Returns the kind of the place: a file, a folder, or neither.
    fn kind(self) -> Kind {
        match self.file {
            File::Holds(_) => Kind::File,
            File::Folder => Kind::Folder,
            File::Link => Kind::Other,
        }
    }

    /// Returns this place as a child of its folder, with its name there.
    fn child(self, alloc: Global, name: &str) -> Result<Child, OutOfMemory> {
        let name = Name::from_text(alloc, name)?;
        let kind = self.kind();
        Ok(Child { name, kind })
    }
}

impl Places {
    /// Returns places with nothing in the folder in which the row is run.
    pub fn new(alloc: Global) -> Result<Places, OutOfMemory> {
        let files = Files::new(alloc);
        let mut places = Places { alloc, files };
        places.put(TOP, File::Folder)?;
        Ok(places)
    }

    /// Adds what is at a path, in place of what was there.
    fn put(&mut self, path: &str, file: File) -> Result<(), OutOfMemory> {
        let path = String::from_str(self.alloc, path)?;
        self.files.insert(path, file)?;
        Ok(())
    }

    /// Adds the folder that the path names so far, and goes on to the next name.
    fn put_next(&mut self, above: &mut String, name: &str) -> Result<(), OutOfMemory> {
        if !above.is_empty() {
            self.put(above.as_str(), File::Folder)?;
            above.push('/')?;
        }
        above.push_str(name)?;
        Ok(())
    }

    /// Adds the folders above a path.
    fn put_above(&mut self, path: &str) -> Result<(), OutOfMemory> {
        let mut above = String::new(self.alloc);
        for name in path.split('/') {
            self.put_next(&mut above, name)?;
        }
        Ok(())
    }

    /// Adds a file with these bytes, without the folders above it.
    fn put_bytes(&mut self, path: &str, bytes: &[u8]) -> Result<(), OutOfMemory> {
        let bytes = Vec::from_slice(self.alloc, bytes)?;
        self.put(path, File::Holds(bytes))
    }

    /// Adds a file with these bytes, and the folders above it. Each replaces whatever is at its path.
    pub fn put_file(&mut self, path: &str, bytes: &[u8]) -> Result<(), OutOfMemory> {
        self.put_above(path)?;
        self.put_bytes(path, bytes)
    }

    /// Adds one file of a row, with the folders above it.
    fn put_one(&mut self, path: &str, file: &File) -> Result<(), OutOfMemory> {
        self.put_above(path)?;
        match file {
            File::Holds(bytes) => self.put_bytes(path, bytes.as_slice()),
            File::Folder => Ok(()),
            File::Link => self.put(path, File::Link),
        }
    }

    /// Adds the files of a row in order, each with the folders above it. Each replaces whatever is at its path.
    pub fn put_all(&mut self, files: &Vec<Placed<'_>>) -> Result<(), OutOfMemory> {
        for placed in files {
            self.put_one(placed.path.as_str(), &placed.file)?;
        }
        Ok(())
    }

    /// Adds what is at a path, if the path is directly in this folder.
    fn add_child(
        &self,
        folder: &str,
        place: Place<'_>,
        children: &mut Children,
    ) -> Result<(), OutOfMemory> {
        if let Some(name) = name_in(folder, place.path) {
            let child = place.child(self.alloc, name)?;
            children.push(child)?;
        }
        Ok(())
    }

    /// Adds the content of a folder. The last name comes first, because sorting is the program's task.
    fn add_children(&self, folder: &str, children: &mut Children) -> Result<(), OutOfMemory> {
        for (path, file) in self.files.iter().rev() {
            let path = path.as_str();
            self.add_child(folder, Place { path, file }, children)?;
        }
        Ok(())
    }

    /// Returns a folder with what is in it.
    fn folder(&self, path: &str) -> Result<Held, OutOfMemory> {
        let mut children = Children::new(self.alloc);
        self.add_children(path, &mut children)?;
        Ok(Held::Folder(children))
    }

    /// Returns what a node of the tree has at this place.
    fn held(&self, place: Place<'_>) -> Result<Held, OutOfMemory> {
        match place.file {
            File::Holds(bytes) => Ok(Held::File(Content::from_slice(
                self.alloc,
                bytes.as_slice(),
            )?)),
            File::Folder => self.folder(place.path),
            File::Link => Ok(Held::Other),
        }
    }

    /// Returns the node of a place, with this spelling of its path.
    fn node(&self, spelling: &str, place: Place<'_>) -> Result<Node, OutOfMemory> {
        let path = Name::from_text(self.alloc, spelling)?;
        let held = self.held(place)?;
        Ok(Node { path, held })
    }

    /// Adds each place by its own path.
    fn add_plain<'a>(&'a self, spellings: &mut Spellings<'a>) -> Result<(), OutOfMemory> {
        for (path, file) in &self.files {
            let spelling = path.clone()?;
            add_spelling(spelling, path.as_str(), file, spellings)?;
        }
        Ok(())
    }

    /// Adds the places at and below a path that a word spells.
    fn add_below<'a>(
        &'a self,
        word: &str,
        wanted: &str,
        spellings: &mut Spellings<'a>,
    ) -> Result<(), OutOfMemory> {
        for (path, file) in &self.files {
            if let Some(rest) = below(wanted, path.as_str()) {
                let spelling = joined(self.alloc, word, rest)?;
                add_spelling(spelling, path.as_str(), file, spellings)?;
            }
        }
        Ok(())
    }

    /// Adds the places at and below the path that a word spells, in the word's spelling: so `./a.py` and `p/` are found
    /// although the paths are `a.py` and `p`.
    fn add_spelled<'a>(
        &'a self,
        word: &str,
        spellings: &mut Spellings<'a>,
    ) -> Result<(), OutOfMemory> {
        let wanted = plain(self.alloc, word)?;
        self.add_below(word, wanted.as_str(), spellings)
    }

    /// Adds the places at and below the paths that these words spell, except words that are empty or begin with `/`.
    fn add_words<'a>(
        &'a self,
        words: &Vec<String>,
        spellings: &mut Spellings<'a>,
    ) -> Result<(), OutOfMemory> {
        for word in words {
            let word = word.as_str();
            if !word.is_empty() && !word.starts_with('/') {
                self.add_spelled(word, spellings)?;
            }
        }
        Ok(())
    }

    /// Adds all places, as a call with these words spells them.
    fn add_spellings<'a>(
        &'a self,
        words: &Vec<String>,
        spellings: &mut Spellings<'a>,
    ) -> Result<(), OutOfMemory> {
        self.add_plain(spellings)?;
        self.add_words(words, spellings)
    }

    /// Adds the node of a place.
    fn add_node(
        &self,
        spelling: &str,
        place: Place<'_>,
        nodes: &mut Nodes,
    ) -> Result<(), OutOfMemory> {
        let node = self.node(spelling, place)?;
        nodes.push(node)?;
        Ok(())
    }

    /// Adds the nodes of all places.
    fn add_nodes(&self, spellings: &Spellings<'_>, nodes: &mut Nodes) -> Result<(), OutOfMemory> {
        for (spelling, place) in spellings {
            self.add_node(spelling.as_str(), *place, nodes)?;
        }
        Ok(())
    }

    /// Adds the nodes of all places that a call with these words finds.
    fn add_all(&self, words: &Vec<String>, nodes: &mut Nodes) -> Result<(), OutOfMemory> {
        let mut spellings = Spellings::new(self.alloc);
        self.add_spellings(words, &mut spellings)?;
        self.add_nodes(&spellings, nodes)
    }

    /// Returns the nodes of a tree with these files. The tree finds each of them by its path and by the spellings of the path
    /// that these words give, such as `./a.py` for `a.py`.
    pub fn nodes(&self, words: &Vec<String>) -> Result<Nodes, OutOfMemory> {
        let mut nodes = Nodes::new(self.alloc);
        self.add_all(words, &mut nodes)?;
        Ok(nodes)
    }
}

/// Adds what is at a path, by a spelling of the path.
fn add_spelling<'a>(
    spelling: String,
    path: &'a str,
    file: &'a File,
    spellings: &mut Spellings<'a>,
) -> Result<(), OutOfMemory> {
    spellings.insert(spelling, Place { path, file })?;
    Ok(())
}

/// Returns the folder and the name of a path.
fn parted(path: &str) -> (&str, &str) {
    match path.rsplit_once('/') {
        Some((above, name)) => (above, name),
        None => (TOP, path),
    }
}

/// Returns the name of a path if it is directly in this folder.
fn name_in<'a>(folder: &str, path: &'a str) -> Option<&'a str> {
    let (above, name) = parted(path);
    if above == folder && name != TOP {
        Some(name)
    } else {
        None
    }
}

/// Adds a name to a path, unless it names the current folder.
fn add_name(path: &mut String, name: &str) -> Result<(), OutOfMemory> {
    if name.is_empty() || name == TOP {
        return Ok(());
    }
    if !path.is_empty() {
        path.push('/')?;
    }
    path.push_str(name)?;
    Ok(())
}

/// Adds the names in a word, except names `.`.
fn add_names(path: &mut String, word: &str) -> Result<(), OutOfMemory> {
    for name in word.split('/') {
        add_name(path, name)?;
    }
    Ok(())
}

/// Returns the path that a word spells, without names `.` and unnecessary slashes.
fn plain(alloc: Global, word: &str) -> Result<String, OutOfMemory> {
    let mut path = String::new(alloc);
    add_names(&mut path, word)?;
    if path.is_empty() {
        path.push_str(TOP)?;
    }
    Ok(path)
}

/// Returns the rest of a path after a folder's path, if it is at or below the folder.
fn below<'a>(folder: &str, path: &'a str) -> Option<&'a str> {
    if folder == path {
        Some("")
    } else if folder == TOP {
        Some(path)
    } else {
        path.strip_prefix(folder)?.strip_prefix('/')
    }
}

/// Returns a path below a word.
fn joined(alloc: Global, word: &str, rest: &str) -> Result<String, OutOfMemory> {
    let mut path = String::from_str(alloc, word)?;
    if !rest.is_empty() && !word.ends_with('/') {
        path.push('/')?;
    }
    path.push_str(rest)?;
    Ok(path)
}
