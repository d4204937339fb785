//! The plan of a body: a list of its operators, each after its parts.
ghost use Rattle.std.specs.Prelude.{◌≡◌, ◌-◌, ◌<◌, Some, IsTrue, IfOk, length, slice_get};
ghost use Rattle.std.specs.Coded.{codes};
ghost use Rattle.std.specs.Option.{option_copied};
ghost use Rattle.tb_body.specs.contracts.tree.Tree as tree;
ghost use Rattle.tb_process_steps.specs.Helpers.Plans.{AreBehind, is_behind, HasAdded, trees, tree_at, built};

use crate::node::Node;
use std::alloc::Global;
use tb_body::{Atom, Body, Tree, copy_settings};
use tb_terms::{Items, NoMemory};

/// The plan of a body: a list of its operators, each after its parts.
#[derive(Drop)]
pub struct Plan {
    pub(crate) body: Body,
    pub(crate) nodes: Items<Node>,
    pub(crate) root: usize,
    ghost behind: { AreBehind nodes },
    ghost within: { root < length nodes },
    ghost whole: { tree_at nodes root ≡ body.tree } by { Prim.hlevel (codes, tree.the_row.coded) },
}

impl Plan {
    /// Returns the plan of a body.
    pub(crate) fn new(alloc: Global, body: &Body) -> Result<Plan, NoMemory>
        ensures { IfOk result (λ plan. plan.body ≡ body.now) }
    {
        let mut nodes = Items::new(alloc);
        let root = add_tree(alloc, &mut nodes, &body.tree)?;
        let body = body.copy(alloc)?;
        Ok(Plan { body, nodes, root })
    }

    pub(crate) fn node(&self, at: usize) -> &Node
        requires { at < length self.now.nodes }
        ensures node { slice_get self.now.nodes at ≡ Some result.now }
        ensures behind { AreBehind self.now.nodes }
    {
        &self.nodes.as_slice()[at]
    }

    /// Returns the atom with this number, counted from 1, if there is one.
    pub(crate) fn atom(&self, number: u32) -> Option<&Atom>
        ensures { option_copied result ≡ slice_get self.now.body.atoms (number - 1) }
    {
        self.body.atoms.get(number.saturating_sub(1) as usize)
    }
}

/// Adds the nodes of a tree after the others, and returns the position of its root.
#[cycle(add_tree)]
fn add_tree(alloc: Global, nodes: &mut Items<Node>, tree: &Tree) -> Result<usize, NoMemory>
    requires { AreBehind nodes.old }
    ensures { IfOk result (λ at. HasAdded nodes.old nodes.new at tree.now) }
{
    match tree {
        Tree::At(atom) => push_node(nodes, Node::At(*atom)),
        Tree::Seq(x, y) => {
            let x = add_tree(alloc, nodes, x.get())?;
            let y = add_tree(alloc, nodes, y.get())?;
            push_node(nodes, Node::Seq(x, y))
        }
        Tree::Alt(x, y) => {
            let x = add_tree(alloc, nodes, x.get())?;
            let y = add_tree(alloc, nodes, y.get())?;
            push_node(nodes, Node::Alt(x, y))
        }
        Tree::Star(x, y) => {
            let x = add_tree(alloc, nodes, x.get())?;
            let y = add_tree(alloc, nodes, y.get())?;
            push_node(nodes, Node::Star(x, y))
        }
        Tree::Par(x, y) => {
            let x = add_tree(alloc, nodes, x.get())?;
            let y = add_tree(alloc, nodes, y.get())?;
            push_node(nodes, Node::Par(x, y))
        }
        Tree::Disrupt(x, y) => {
            let x = add_tree(alloc, nodes, x.get())?;
            let y = add_tree(alloc, nodes, y.get())?;
            push_node(nodes, Node::Disrupt(x, y))
        }
        Tree::If(test, x, Some(y)) => {
            let x = add_tree(alloc, nodes, x.get())?;
            let y = add_tree(alloc, nodes, y.get())?;
            let test = test.copy(alloc)?;
            push_node(nodes, Node::If(test, x, Some(y)))
        }
        Tree::If(test, x, None) => {
            let x = add_tree(alloc, nodes, x.get())?;
            let test = test.copy(alloc)?;
            push_node(nodes, Node::If(test, x, None))
        }
        Tree::Let(settings, x) => {
            let x = add_tree(alloc, nodes, x.get())?;
            let settings = copy_settings(alloc, settings)?;
            push_node(nodes, Node::Let(settings, x))
        }
    }
}

/// Adds a node, and returns its position.
fn push_node(nodes: &mut Items<Node>, node: Node) -> Result<usize, NoMemory>
    requires all { AreBehind nodes.old }
    requires behind { IsTrue (is_behind (length nodes.old) node) }
    ensures { IfOk result (λ at. HasAdded nodes.old nodes.new at (built (trees nodes.old) node)) }
{
    let at = nodes.len();
    nodes.push(node)?;
    Ok(at)
}
