//! A law about walks. The function does nothing; its `ensures` clause is the law.
//!
//! The map of a tree of files is the list of its nodes, which are paths with what is there. A step is a task of the walk: to
//! find out what is at a given path, to read a file, to enter a folder, or to report a given path that is neither. A path is
//! met when the walk first takes the file or the folder there; later it is skipped. A call asks a tree for the kind, the
//! children or the bytes of a path, and its mark says whether it failed. A visit is what the walk reports about a path: a
//! source with its bytes, or why there is none.
ghost use Rattle.std.specs.Prelude.{List};
ghost use Rattle.rl_source.specs.declared.nodes.Node.{Node};
ghost use Rattle.rl_walk.specs.OneWalk.{IsDetermined};

/// Does nothing: its contract states that walks are determined. It is about a map in which no two nodes have the same path,
/// and no two children of a folder have the same name. If two walks over this map have the same steps to do, have met the same
/// paths, and their calls have the same marks in the same order, then they make the same calls and the same visits, in the
/// same order.
pub fn walks_are_determined()
    ensures { (nodes : List Node) → IsDetermined nodes }
{}
