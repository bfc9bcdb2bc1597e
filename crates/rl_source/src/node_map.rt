//! Lookups in a list of nodes.
ghost use Rattle.std.specs.Prelude.{◌≡◌, option_copied, option_map};
ghost use Rattle.rl_source.specs.NodeMap.{found_at, kind_at, children_at, bytes_at};

use crate::nodes::{Child, Held, Kind, Node};

/// Returns what is at a path.
fn found_at<'a>(nodes: &'a [Node], path: &str) -> Option<&'a Held>
    ensures { option_copied result ≡ found_at nodes.now path.now }
{
    for node in nodes {
        if node.path.as_str() == path {
            return Some(&node.held);
        }
    }
    None
}

/// Returns the kind of what is at the path, or `None` if no node has the path.
pub(crate) fn kind_at(nodes: &[Node], path: &str) -> Option<Kind>
    ensures { result ≡ kind_at nodes.now path.now }
{
    match found_at(nodes, path) {
        Some(held) => Some(held.kind()),
        None => None,
    }
}

/// Returns the children of the folder at the path, or `None` if no folder is there.
pub(crate) fn children_at<'a>(nodes: &'a [Node], path: &str) -> Option<&'a [Child]>
    ensures { option_map (λ c. c.now) result ≡ children_at nodes.now path.now }
{
    match found_at(nodes, path) {
        Some(Held::Folder(children)) => Some(children.as_slice()),
        _ => None,
    }
}

/// Returns the bytes of the file at the path, or `None` if no file is there.
pub(crate) fn bytes_at<'a>(nodes: &'a [Node], path: &str) -> Option<&'a [u8]>
    ensures { option_map (λ c. c.now) result ≡ bytes_at nodes.now path.now }
{
    match found_at(nodes, path) {
        Some(Held::File(content)) => Some(content.as_slice()),
        _ => None,
    }
}
