//! Tests of `rl_source`: trees, sinks and writers that fail, and a file on the disk.

use rl_lists::OutOfMemory;
use rl_source::{
    DiskTree, Held, Kind, MemSink, MemTree, MemTreeError, Name, Node, Nodes, Sink, SinkFailed,
    StdSink, Tree, TreeError, write_all,
};
use std::alloc::Global;
use std::test::Fail;
use std::{fs, io, process};

/// Returns nodes that are neither files nor folders.
fn nodes(alloc: Global, paths: &[&str]) -> Result<Nodes, OutOfMemory> {
    let mut nodes = Nodes::new(alloc);
    for path in paths {
        let path = Name::from_text(alloc, path)?;
        let held = Held::Other;
        nodes.push(Node { path, held })?;
    }
    Ok(nodes)
}

/// Returns the tree of these nodes. Its second call fails.
fn tree(alloc: Global, paths: &[&str]) -> Result<MemTree, MemTreeError> {
    let failing = Vec::from_slice(alloc, &[2]).map_err(OutOfMemory::from)?;
    let nodes = nodes(alloc, paths)?;
    MemTree::new(alloc, nodes, failing)
}

/// Returns whether the second call fails because of its number, and others because the map has no answer.
fn fails(tree: &mut MemTree) -> bool {
    tree.kind("a") == Ok(Kind::Other)
        && tree.kind("a") == Err(TreeError::Failed)
        && tree.kind("a") == Ok(Kind::Other)
        && tree.kind("b") == Err(TreeError::Failed)
        && tree.children("a").is_err()
        && tree.read("a", 9).is_err()
        && tree.faults() == 4
}

/// Tests a tree with one path, whose second call fails.
#[test]
fn calls_of_a_tree_fail(rt: HostRuntime) -> Result<(), MemTreeError> {
    let mut tree = tree(rt.alloc(), &["a"])?;
    assert!(rt; fails(&mut tree));
    Ok(())
}

/// Tests that no tree is made of nodes two of which have the same path.
#[test]
fn a_path_stands_once(rt: HostRuntime) {
    let found = tree(rt.alloc(), &["a", "b", "a"]);
    assert!(rt; matches!(found, Err(MemTreeError::DoublePath)));
}

/// Tests that a name gives back the text that it was made of.
#[test]
fn a_name_is_its_text(rt: HostRuntime) -> Result<(), OutOfMemory> {
    let name = Name::from_text(rt.alloc(), "naïve")?;
    assert!(rt; name.into_string().as_str() == "naïve");
    Ok(())
}

/// Pieces, and how much of each a sink takes whose writes take at most two bytes and whose second write fails.
static PIECES: [(&[u8], Result<usize, SinkFailed>); 4] = [
    (b"abc", Ok(2)),
    (b"c", Err(SinkFailed)),
    (b"", Ok(0)),
    (b"cde", Ok(2)),
];

/// Returns whether the sink takes of each piece what the table says, with one fault.
fn takes_steps(sink: &mut MemSink) -> bool {
    for (piece, answer) in &PIECES {
        if sink.write(piece) != *answer {
            return false;
        }
    }
    sink.faults() == 1
}

/// Tests a sink with room for five bytes.
#[test]
fn writes_to_a_sink_fail(rt: HostRuntime) -> Result<(), Fail> {
    let failing = Vec::from_slice(rt.alloc(), &[2])?;
    let mut sink = MemSink::new(rt.alloc(), 2, 5, failing)?;
    assert!(rt; takes_steps(&mut sink));
    assert!(rt; write_all(&mut sink, b"efg") == Err(SinkFailed) && sink.faults() == 2);
    assert!(rt; sink.bytes() == b"abcde".as_slice());
    Ok(())
}

/// Tests a writer with room for two bytes, which takes nothing more after that.
#[test]
fn a_full_writer_is_a_fault(rt: HostRuntime) {
    let mut room = [0u8; 2];
    let mut sink = StdSink::new(&mut room[..]);
    assert!(rt; write_all(&mut sink, b"abc") == Err(SinkFailed) && sink.faults() == 1);
    assert!(rt; room.as_slice() == b"ab".as_slice());
}

/// Returns whether these bytes were read.
fn are_read(found: Result<Vec<u8>, TreeError>, wanted: &[u8]) -> bool {
    match found {
        Ok(bytes) => bytes.as_slice() == wanted,
        Err(_) => false,
    }
}

/// Returns whether the path is a file with these first six bytes, and has no children.
fn is_file(rt: &HostRuntime, path: &str) -> bool {
    let mut tree = DiskTree::new(rt);
    tree.kind(path) == Ok(Kind::File)
        && are_read(tree.read(path, 6), b"import")
        && tree.children(path).is_err()
        && tree.faults() == 1
}

/// Tests a file that only this run uses.
#[test]
fn a_file_on_the_disk(rt: HostRuntime) -> io::Result<()> {
    let path = format!(in rt.alloc(); "rl_source-{}", process::id(rt.process()))?;
    fs::write(&rt, path.as_str(), "import re\n")?;
    assert!(rt; is_file(&rt, path.as_str()));
    fs::remove_file(&rt, path.as_str())
}
