//! The outside world as two traits: [`Tree`] is a tree of files that can be queried, and [`Sink`] takes bytes.
//!
//! [`DiskTree`] is a tree over the file system, and [`StdSink`] is a sink over a writer such as standard output.
//! [`MemTree`] and [`MemSink`] are fakes in memory; a test can say which of their calls fail. The crates above work with
//! any tree and any sink, so their contracts hold for the real world and for the fakes alike. [`write_all`] offers a text
//! to a sink until all of it is taken.
//!
//! # What is proved
//!
//! A tree may reveal to contracts its map of files and the trail of the calls made on it. If it does, every answer agrees
//! with the map, no call changes the map, and every call is added to the trail: what it asked, of a read also how many bytes
//! at most, and whether it failed. A call that ran out of memory isn't added. A call fails only if the fault count increased
//! or is saturated. If a sink reveals its bytes, [`write_all`] appends the whole text, or it fails and only a proper prefix of
//! the text was appended. No contract says what is on a disk, because a [`DiskTree`] reveals neither a map nor a trail.
//!
//! # Example
//!
//! ```
//! // a folder `d` with a file `a` that contains `one`, and a file `b` that contains `two two`
//! tree.read("d/b", 5); // Ok: the bytes `two t`
//! tree.kind("e"); // Err(TreeError::Failed)
//! tree.faults(); // 1
//! ```
//!
//! Read `specs/Revealed.antt` and `specs/NodeMap.antt` first, then `specs/Asked.antt` and `specs/Faults.antt`, and for sinks
//! `specs/Written.antt`.
#![tactic(auto)]

mod disk_tree;
mod doubles;
mod mem_sink;
mod mem_tree;
mod node_map;
mod nodes;
mod sinks;
mod std_sink;
mod trees;

pub use disk_tree::{DiskTree, Runtime};
pub use mem_sink::MemSink;
pub use mem_tree::{MemTree, MemTreeError};
pub use nodes::{Call, Child, Children, Content, Held, Kind, Name, Node, Nodes, Query};
pub use sinks::{Sink, SinkFailed, write_all};
pub use std_sink::StdSink;
pub use trees::{Tree, TreeError};
