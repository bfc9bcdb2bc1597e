//! Group names that occur more than once.

ghost use Rattle.std.specs.Prelude.{◌≡◌, ℕ, ◌+◌, ◌<◌, List, [], ◌++◌, map, IfOk};
ghost use Rattle.rl_pattern.specs.internal.Views.{node_of, branch_of};
ghost use Rattle.rl_pattern.specs.internal.Judged.{called_of};
ghost use Rattle.rl_pattern.specs.Tree as t;
ghost use Rattle.rl_pattern.specs.Found as f;

use crate::faults::{Fault, earlier, fault_if};
use crate::tree::{Branch, Kind, SyntaxNode};
use rl_lists::{Codes, Items, OutOfMemory};
use rl_syntax::Feature;
use std::alloc::Global;
use std::collections::BTreeSet;

/// A group name in a pattern.
#[derive(Drop)]
struct Called {
    /// The position of the opening parenthesis of its group.
    place: u32,
    /// The codes of the name.
    name: Codes,
}

/// Adds the name of a group, if it has one, to the names.
fn with_name(
    alloc: Global,
    place: u32,
    kind: &Kind,
    mut found: Items<Called>,
) -> Result<Items<Called>, OutOfMemory>
    ensures { IfOk result (λ all. map called_of all ≡ map called_of found ++ f.kind_names place kind.now) }
{
    match kind {
        Kind::Named(name) => {
            let Ok(name) = Codes::from_slice(alloc, name.as_slice()) else {
                drop(found);
                return Err(OutOfMemory);
            };
            let Ok(()) = found.push(Called { place, name }) else {
                drop(found);
                return Err(OutOfMemory);
            };
            Ok(found)
        }
        Kind::Capturing
        | Kind::Scoped(_, _)
        | Kind::Lookaround { .. }
        | Kind::Atomic
        | Kind::Conditional => Ok(found),
    }
}

/// Adds the group names in a node to the names, in the order of their parentheses.
#[cycle(node_names)]
fn node_names(
    alloc: Global,
    node: &SyntaxNode,
    found: Items<Called>,
) -> Result<Items<Called>, OutOfMemory>
    ensures { IfOk result (λ all. map called_of all ≡ map called_of found ++ f.node_names (node_of node.now)) }
{
    match node {
        SyntaxNode::Leaf(_, _, _) | SyntaxNode::Assertion(_, _, _) | SyntaxNode::Nothing(_) => Ok(
            found,
        ),
        SyntaxNode::Repeat(_, _, _, _, body) => node_names(alloc, body, found),
        SyntaxNode::Group(span, kind, body) => {
            let found = with_name(alloc, span.from, kind, found)?;
            node_names(alloc, body, found)
        }
        SyntaxNode::Seq(_, items) => nodes_names(alloc, items.as_slice(), found),
        SyntaxNode::Choice(_, branches) => branches_names(alloc, branches.as_slice(), found),
    }
}

/// Adds the group names in a sequence of nodes to the names.
#[cycle(node_names)]
fn nodes_names(
    alloc: Global,
    nodes: &[SyntaxNode],
    found: Items<Called>,
) -> Result<Items<Called>, OutOfMemory>
    ensures { IfOk result (λ all. map called_of all ≡ map called_of found ++ f.nodes_names (t.nodes (map node_of nodes.now))) }
{
    let mut all = found;
    for node in nodes {
        all = node_names(alloc, node, all)?;
    }
    Ok(all)
}

/// Adds the group names in the branches of a choice to the names.
#[cycle(node_names)]
fn branches_names(
    alloc: Global,
    branches: &[Branch],
    found: Items<Called>,
) -> Result<Items<Called>, OutOfMemory>
    ensures { IfOk result (λ all. map called_of all ≡ map called_of found ++ f.branches_names (t.branches (map branch_of branches.now))) }
{
    let mut all = found;
    for branch in branches {
        all = node_names(alloc, &branch.body, all)?;
    }
    Ok(all)
}

/// Returns the first fault among the names, or `None` if no name occurs twice. A name is a fault if it occurred before.
fn names_fault(alloc: Global, names: &[Called]) -> Result<Option<Fault>, OutOfMemory>
    ensures { IfOk result (λ o. o ≡ f.first_fault (f.name_faults [] (map called_of names.now))) }
{
    let mut before: BTreeSet<&[u32]> = BTreeSet::new(alloc);
    let mut best = None;
    for called in names {
        let Ok(is_new) = before.insert(called.name.as_slice()) else {
            drop(before);
            return Err(OutOfMemory);
        };
        best = earlier(
            best,
            fault_if(!is_new, called.place, Feature::DuplicateName),
        );
    }
    drop(before);
    Ok(best)
}

/// Returns the first duplicate group name in a body, as a fault at the group's parenthesis, or `None` if no name occurs twice.
///
/// # Errors
/// [`OutOfMemory`] if there is no memory for the names.
pub(crate) fn name_fault(alloc: Global, body: &SyntaxNode) -> Result<Option<Fault>, OutOfMemory>
    ensures { IfOk result (λ o. o ≡ f.first_fault (f.name_faults [] (f.node_names (node_of body.now)))) }
{
    let names = node_names(alloc, body, Items::new(alloc))?;
    let fault = names_fault(alloc, names.as_slice());
    drop(names);
    fault
}
