//! The children of a folder: their order, their paths, and which names source files have.
ghost use Rattle.std.specs.Prelude.{◌≡◌, IfOk, string_bytes};
ghost use Rattle.rl_walk.specs.Children.{path_below, slash_after, has_source_name, IsInOrder};

use rl_lists::OutOfMemory;
use rl_source::Child;
use std::alloc::Global;

/// Returns whether the name ends in `.py`.
pub(crate) fn has_source_name(name: &str) -> bool
    ensures { result ≡ has_source_name name.now }
{
    name.as_bytes().ends_with(b".py")
}

/// Returns what separates a folder's path from the name of a child: a slash, or nothing if the path already ends in one.
fn slash_after(folder: &str) -> &'static str
    ensures { result.now ≡ slash_after folder.now }
{
    if folder.as_bytes().ends_with(b"/") {
        ""
    } else {
        "/"
    }
}

/// Returns the path of the child with this name in the folder with the path `folder`.
///
/// # Errors
/// [`OutOfMemory`] if there is not enough memory.
pub(crate) fn path_below(alloc: Global, folder: &str, name: &str) -> Result<String, OutOfMemory>
    ensures { IfOk result (λ path. string_bytes path ≡ path_below folder.now name.now) }
{
    let mut path = String::from_str(alloc, folder)?;
    path.push_str(slash_after(folder))?;
    path.push_str(name)?;
    Ok(path)
}

/// Returns the children sorted by the bytes of their names, in ascending order.
///
/// # Errors
/// [`OutOfMemory`] if there is not enough memory.
pub(crate) fn in_order(mut children: Vec<Child>) -> Result<Vec<Child>, OutOfMemory>
    ensures { IfOk result (λ sorted. IsInOrder children.items sorted.items) }
{
    children.sort_by(|a, b| a.name.as_str().cmp(b.name.as_str()))?;
    Ok(children)
}
