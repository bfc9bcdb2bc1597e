//! Whether a list of nodes is a map: no path occurs twice, and neither does the name of a child in one folder.
ghost use Rattle.std.specs.Prelude.{◌≡◌, IfOk};
ghost use Rattle.rl_source.specs.Distinct.{has_double, names_twice, is_double};

use crate::nodes::{Child, Held, Node};
use rl_lists::OutOfMemory;
use std::alloc::Global;
use std::collections::BTreeSet;

/// Whether two nodes have the same path.
fn paths_repeat(alloc: Global, nodes: &[Node]) -> Result<bool, OutOfMemory>
    ensures { IfOk result (λ found. found ≡ has_double (λ n. n.path) nodes.now) }
{
    let mut seen = BTreeSet::new(alloc);
    for node in nodes {
        if !seen.insert(node.path.as_str())? {
            return Ok(true);
        }
    }
    Ok(false)
}

/// Whether two children have the same name.
fn names_repeat(alloc: Global, children: &[Child]) -> Result<bool, OutOfMemory>
    ensures { IfOk result (λ found. found ≡ has_double (λ c. c.name) children.now) }
{
    let mut seen = BTreeSet::new(alloc);
    for child in children {
        if !seen.insert(child.name.as_str())? {
            return Ok(true);
        }
    }
    Ok(false)
}

/// Whether this is a folder in which two children have the same name.
fn names_twice(alloc: Global, held: &Held) -> Result<bool, OutOfMemory>
    ensures { IfOk result (λ found. found ≡ names_twice held.now) }
{
    match held {
        Held::Folder(children) => names_repeat(alloc, children.as_slice()),
        _ => Ok(false),
    }
}

/// Returns whether two nodes have the same path, or two children of one folder have the same name.
///
/// # Errors
/// [`OutOfMemory`] if there is not enough memory.
pub(crate) fn is_double(alloc: Global, nodes: &[Node]) -> Result<bool, OutOfMemory>
    ensures { IfOk result (λ found. found ≡ is_double nodes.now) }
{
    if paths_repeat(alloc, nodes)? {
        return Ok(true);
    }
    for node in nodes {
        if names_twice(alloc, &node.held)? {
            return Ok(true);
        }
    }
    Ok(false)
}
