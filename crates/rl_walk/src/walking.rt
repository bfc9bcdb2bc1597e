//! The walk itself. A path is met when the walk first takes the file or the folder there; later it is skipped. A call asks a
//! tree for the kind, the children or the bytes of a path, and its mark says whether it failed. A visit is what the walk
//! reports about a path: a source with its bytes, or why there is none.
ghost use Rattle.std.specs.Prelude.{◌≡◌, ◌≤◌, ◌∷◌, [], ◌+◌, map, OnOk};
ghost use Rattle.rl_walk.specs.Steps.{named, file, folder, child_steps, steps_below};
ghost use Rattle.rl_walk.specs.Children.{path_below, IsInOrder};
ghost use Rattle.rl_walk.specs.Visits.{Walked, moment_of};
ghost use Rattle.rl_walk.specs.internal.Parts.{Does};
ghost use Rattle.rl_walk.specs.declared.walking.TheConstants.{MOST_LEVELS};

use crate::children::{has_source_name, in_order, path_below};
use crate::met::Met;
use crate::visits::{Visit, Visitor};
use rl_lists::{MOST_BYTES, OutOfMemory};
use rl_source::{Child, Content, Kind, Name, Tree, TreeError};
use std::alloc::Global;

/// The maximum number of bytes to read of a source. It is one more than a source may have, which is enough to see that a
/// source is too long.
const MOST_READ: usize = MOST_BYTES + 1;

/// The maximum depth of a folder, in levels below the path that the walk was given. A deeper folder isn't entered.
pub const MOST_LEVELS: u32 = 64;

/// Does nothing: its contract states the value of the limit, 64 levels.
pub fn limits_are()
    ensures levels { MOST_LEVELS ≡ 64 }
{}

/// Reads a file, unless the walk has met it before.
fn take_file<T: Tree, V: Visitor>(
    alloc: Global,
    path: &str,
    tree: &mut T,
    met: &mut Met,
    visitor: &mut V,
) -> Result<(), OutOfMemory>
    ensures does { OnOk result (Does (file path.now ∷ [])
        (moment_of T.told T.fault_count tree.old) (moment_of T.told T.fault_count tree.new)
        met.old met.new (V.has_received visitor.old) (V.has_received visitor.new)) }
    ensures later { T.fault_count tree.old ≤ T.fault_count tree.new }
    ensures config { V.config visitor.new ≡ V.config visitor.old }
{
    if !met.add(path)? {
        return Ok(());
    }
    match tree.read(path, MOST_READ) {
        Ok(bytes) => {
            let name = Name::from_text(alloc, path)?;
            visitor.visit(Visit::Source(name, Content::from_vec(bytes)))
        }
        Err(TreeError::Failed) => {
            let unread = Name::from_text(alloc, path)?;
            visitor.visit(Visit::Unreadable(unread))
        }
        Err(TreeError::OutOfMemory) => Err(OutOfMemory),
    }
}

/// Enters a folder at a level, unless the walk has met it before or it is too deep.
#[cycle(folders)]
fn enter<T: Tree, V: Visitor>(
    alloc: Global,
    path: &str,
    level: u32,
    tree: &mut T,
    met: &mut Met,
    visitor: &mut V,
) -> Result<(), OutOfMemory>
    ensures does { OnOk result (Does (folder path.now level ∷ [])
        (moment_of T.told T.fault_count tree.old) (moment_of T.told T.fault_count tree.new)
        met.old met.new (V.has_received visitor.old) (V.has_received visitor.new)) }
    ensures later { T.fault_count tree.old ≤ T.fault_count tree.new }
    ensures config { V.config visitor.new ≡ V.config visitor.old }
{
    if !met.add(path)? {
        return Ok(());
    }
    if level > MOST_LEVELS {
        let name = Name::from_text(alloc, path)?;
        return visitor.visit(Visit::TooDeep(name));
    }
    match tree.children(path) {
        Ok(children) => {
            let children = in_order(children)?;
            take_children(alloc, path, level, &children, tree, met, visitor)
        }
        Err(TreeError::Failed) => {
            let unlisted = Name::from_text(alloc, path)?;
            visitor.visit(Visit::Unreadable(unlisted))
        }
        Err(TreeError::OutOfMemory) => Err(OutOfMemory),
    }
}

/// Takes the children of a folder at a level one after another.
#[cycle(folders)]
fn take_children<T: Tree, V: Visitor>(
    alloc: Global,
    path: &str,
    level: u32,
    children: &[Child],
    tree: &mut T,
    met: &mut Met,
    visitor: &mut V,
) -> Result<(), OutOfMemory>
    requires { level ≤ MOST_LEVELS }
    ensures does { OnOk result (Does (steps_below path.now level children.now)
        (moment_of T.told T.fault_count tree.old) (moment_of T.told T.fault_count tree.new)
        met.old met.new (V.has_received visitor.old) (V.has_received visitor.new)) }
    ensures later { T.fault_count tree.old ≤ T.fault_count tree.new }
    ensures config { V.config visitor.new ≡ V.config visitor.old }
{
    for child in children {
        let below = path_below(alloc, path, child.name.as_str())?;
        take_child(alloc, child, below.as_str(), level + 1, tree, met, visitor)?;
    }
    Ok(())
}

/// Takes a child with its path and its level.
#[cycle(folders)]
fn take_child<T: Tree, V: Visitor>(
    alloc: Global,
    child: &Child,
    path: &str,
    level: u32,
    tree: &mut T,
    met: &mut Met,
    visitor: &mut V,
) -> Result<(), OutOfMemory>
    requires { level ≤ MOST_LEVELS + 1 }
    ensures does { OnOk result (Does (child_steps child.now.kind child.now.name path.now level)
        (moment_of T.told T.fault_count tree.old) (moment_of T.told T.fault_count tree.new)
        met.old met.new (V.has_received visitor.old) (V.has_received visitor.new)) }
    ensures later { T.fault_count tree.old ≤ T.fault_count tree.new }
    ensures config { V.config visitor.new ≡ V.config visitor.old }
{
    match child.kind {
        Kind::File => {
            if has_source_name(child.name.as_str()) {
                take_file(alloc, path, tree, met, visitor)
            } else {
                Ok(())
            }
        }
        Kind::Folder => enter(alloc, path, level, tree, met, visitor),
        Kind::Other => Ok(()),
    }
}

/// Takes a path that the walk was given.
fn take_named<T: Tree, V: Visitor>(
    alloc: Global,
    path: &str,
    tree: &mut T,
    met: &mut Met,
    visitor: &mut V,
) -> Result<(), OutOfMemory>
    ensures does { OnOk result (Does (named path.now ∷ [])
        (moment_of T.told T.fault_count tree.old) (moment_of T.told T.fault_count tree.new)
        met.old met.new (V.has_received visitor.old) (V.has_received visitor.new)) }
    ensures later { T.fault_count tree.old ≤ T.fault_count tree.new }
    ensures config { V.config visitor.new ≡ V.config visitor.old }
{
    match tree.kind(path) {
        Ok(Kind::File) => take_file(alloc, path, tree, met, visitor),
        Ok(Kind::Folder) => enter(alloc, path, 0, tree, met, visitor),
        Ok(Kind::Other) => {
            let name = Name::from_text(alloc, path)?;
            visitor.visit(Visit::NotPlain(name))
        }
        Err(TreeError::Failed) => {
            let unknown = Name::from_text(alloc, path)?;
            visitor.visit(Visit::Unreadable(unknown))
        }
        Err(TreeError::OutOfMemory) => Err(OutOfMemory),
    }
}

/// Walks over a tree, depth first, from each of the paths in turn, and gives each visit to the visitor. Returns `Ok` when all
/// paths are done, even if calls of the tree failed.
///
/// A given path is read if it is a file, whatever its name, and entered if it is a folder; if it is neither, it is reported as
/// [`Visit::NotPlain`]. The children of a folder are taken in the order of the bytes of their names: files whose names end in
/// `.py` are read, folders are entered, and everything else is skipped. A file or folder is skipped if the walk has met the
/// same path text before. A folder more than [`MOST_LEVELS`] levels below the given path is reported as [`Visit::TooDeep`] and
/// isn't entered. Of each file that is read, at most [`MOST_BYTES`] bytes and one more are reported, as [`Visit::Source`]. If
/// a call of the tree fails, its path is reported as [`Visit::Unreadable`], and the walk goes on.
///
/// # Errors
/// [`OutOfMemory`] if there is not enough memory for the walk, for a call of the tree or for the visitor. The walk ends then,
/// perhaps after some visits.
pub fn walk<T: Tree, V: Visitor>(
    alloc: Global,
    paths: &[&str],
    tree: &mut T,
    visitor: &mut V,
) -> Result<(), OutOfMemory>
    ensures walked { OnOk result (Walked
        (moment_of T.told T.fault_count tree.old) (moment_of T.told T.fault_count tree.new)
        (map (λ p. p.now) paths.now) (V.has_received visitor.old) (V.has_received visitor.new)) }
    ensures later { T.fault_count tree.old ≤ T.fault_count tree.new }
    ensures config { V.config visitor.new ≡ V.config visitor.old }
{
    let mut met = Met::new(alloc);
    for path in paths {
        take_named(alloc, path, tree, &mut met, visitor)?;
    }
    Ok(())
}
