//! The code of a body: the table of its positions, and the compiler that makes the table.
ghost use Rattle.std.specs.Prelude.{◌≡◌, ◌++◌, ◌∷◌, [], ◌-◌, ◌<◌, Some, IfOk, IfSome, OnOk, length, suc, slice_get, slice_set};
ghost use Rattle.std.specs.Coded.{codes, coded_list};
ghost use Rattle.std.specs.Option.{option_copied};
ghost use Rattle.tb_code.specs.contracts.node.Node as node_row;
ghost use Rattle.tb_process_steps.specs.Processes.{fresh, Disrupt};
ghost use Rattle.std.proofs.Props.{props};
ghost use Rattle.tb_code.specs.Entries.{AreLists, list_of};
ghost use Rattle.tb_code.specs.Positions.{HasParts, op_at, positions, size, table, node};
ghost use Rattle.tb_code.specs.Helpers.Twos.{joined};

use crate::lists::{add_lists, in_span, span_at};
use crate::two::Two;
use crate::{Entry, Node, Op, Span};
use std::alloc::Global;
use tb_body::{Atom, Body, Tree, copy_settings};
use tb_terms::{Items, NoMemory};

/// A compiled body: the table of its positions, with the lists of the atoms that can be next.
#[derive(Drop)]
pub struct Code {
    /// The body of the code.
    pub body: Body,
    /// The operator and the frame of each position, in the order of the positions.
    pub nodes: Items<Node>,
    /// The entries of all lists that the code keeps.
    pub entries: Items<Entry>,
    /// For each position, the span of its list within `entries`. An empty span means that the code keeps no list.
    pub spans: Items<Span>,
    ghost numbered: { nodes ≡ positions
        (fresh body.tree) } by { Prim.hlevel (codes, coded_list, node_row.the_row.coded) },
    ghost listed: { AreLists body.atoms (fresh body.tree) entries spans } by { Prim.hlevel props },
}

/// Compiles a body: makes the table of its positions, and their lists as far as there is room.
pub fn compile(alloc: Global, body: &Body) -> Result<Code, NoMemory>
    ensures body { IfOk result (λ code. code.body ≡ body.now) }
{
    let mut nodes = Items::new(alloc);
    add_tree(alloc, &mut nodes, &body.tree, None)?;
    let mut entries = Items::new(alloc);
    let mut spans = Items::new(alloc);
    add_lists(alloc, body, nodes.as_slice(), &mut entries, &mut spans)?;
    let body = body.copy(alloc)?;
    Ok(Code {
        body,
        nodes,
        entries,
        spans,
    })
}

impl Code {
    /// Returns the operator and the frame of this position.
    pub fn node(&self, at: usize) -> &Node
        requires { at < size (fresh self.now.body.tree) }
        ensures node { slice_get self.now.nodes at ≡ Some result.now }
        ensures op { op_at (fresh self.now.body.tree) at ≡ result.now.op }
        ensures parts { HasParts (fresh self.now.body.tree) at result.now.op }
        ensures frame { IfSome result.now.frame (λ frame. frame < at) }
    {
        self.node_of(at)
    }

    /// Returns the position of an operator's first part.
    pub fn first(&self, at: usize) -> usize
        requires { at < size (fresh self.now.body.tree) }
        ensures { result ≡ suc at }
    {
        let _positions = self.nodes.len();
        at + 1
    }

    /// Returns the list of a position, if the code keeps one: the atoms that can be next, in the order of the source. Otherwise, returns
    /// an empty list, which doesn't state that no atom can be next.
    pub fn list(&self, at: usize) -> &[Entry]
        requires { at < size (fresh self.now.body.tree) }
        ensures { 0 < length result.now
            → list_of self.now.body.atoms (fresh self.now.body.tree) at ≡ result.now }
    {
        let span = span_at(self.spans.as_slice(), at);
        in_span(self.entries.as_slice(), span)
    }

    fn node_of(&self, at: usize) -> &Node
        requires { at < length self.now.nodes }
        ensures { slice_get self.now.nodes at ≡ Some result.now }
    {
        &self.nodes.as_slice()[at]
    }

    /// Returns the atom with this number, counted from 1, if there is one.
    pub fn atom(&self, number: u32) -> Option<&Atom>
        ensures { option_copied result ≡ slice_get self.now.body.atoms (number - 1) }
    {
        self.body.atoms.get(number.saturating_sub(1) as usize)
    }
}

/// Adds the positions of a tree whose root has this frame.
#[cycle(add_tree)]
fn add_tree(
    alloc: Global,
    nodes: &mut Items<Node>,
    tree: &Tree,
    frame: Option<usize>,
) -> Result<(), NoMemory>
    ensures { OnOk result
        (nodes.new ≡ nodes.old ++ table (fresh tree.now) (length nodes.old) frame) }
{
    match tree {
        Tree::At(atom) => push_node(nodes, Op::At(*atom), frame),
        Tree::Seq(x, y) => add_two(alloc, nodes, Two::Seq, x.get(), y.get(), frame),
        Tree::Alt(x, y) => add_two(alloc, nodes, Two::Alt, x.get(), y.get(), frame),
        Tree::Star(x, y) => add_two(alloc, nodes, Two::Star, x.get(), y.get(), frame),
        Tree::Par(x, y) => add_two(alloc, nodes, Two::Par, x.get(), y.get(), frame),
        Tree::Disrupt(x, y) => add_until(alloc, nodes, x.get(), y.get(), frame),
        Tree::If(test, x, Some(y)) => {
            let test = test.copy(alloc)?;
            add_two(alloc, nodes, Two::If(test), x.get(), y.get(), frame)
        }
        Tree::If(test, x, None) => {
            let test = test.copy(alloc)?;
            push_node(nodes, Op::When(test), frame)?;
            add_tree(alloc, nodes, x.get(), frame)
        }
        Tree::Let(settings, x) => {
            let settings = copy_settings(alloc, settings)?;
            push_node(nodes, Op::Let(settings), frame)?;
            add_tree(alloc, nodes, x.get(), frame)
        }
    }
}

/// Adds the position of an operator with this frame, and the positions of its two parts.
#[cycle(add_tree)]
fn add_two(
    alloc: Global,
    nodes: &mut Items<Node>,
    two: Two,
    x: &Tree,
    y: &Tree,
    frame: Option<usize>,
) -> Result<(), NoMemory>
    ensures { OnOk result (nodes.new
        ≡ nodes.old ++ table (joined two (fresh x.now) (fresh y.now)) (length nodes.old) frame) }
{
    let here = open_node(nodes, frame)?;
    add_tree(alloc, nodes, x, two.frame_of_first(here, frame))?;
    let right = nodes.len();
    add_tree(alloc, nodes, y, frame)?;
    set_node(nodes, here, two.op(right), frame);
    Ok(())
}

/// Adds the positions of a disrupt with this frame. Its right side waits at the position directly before its own first position.
#[cycle(add_tree)]
fn add_until(
    alloc: Global,
    nodes: &mut Items<Node>,
    x: &Tree,
    y: &Tree,
    frame: Option<usize>,
) -> Result<(), NoMemory>
    ensures { OnOk result (nodes.new
        ≡ nodes.old ++ table (Disrupt (fresh x.now) (fresh y.now)) (length nodes.old) frame) }
{
    let here = open_node(nodes, frame)?;
    add_tree(alloc, nodes, x, Some(here))?;
    let waits = nodes.len();
    push_node(nodes, Op::Waits(here), frame)?;
    add_tree(alloc, nodes, y, frame)?;
    set_node(nodes, here, Op::Disrupt(waits), frame);
    Ok(())
}

fn push_node(nodes: &mut Items<Node>, op: Op, frame: Option<usize>) -> Result<(), NoMemory>
    ensures { OnOk result (nodes.new ≡ nodes.old ++ node op frame ∷ []) }
{
    nodes.push(Node { op, frame })?;
    Ok(())
}

/// Adds a position, and returns it. Its operator is set after its parts are added.
fn open_node(nodes: &mut Items<Node>, frame: Option<usize>) -> Result<usize, NoMemory>
    ensures here { IfOk result (λ here. here ≡ length nodes.old) }
    ensures opened { OnOk result (nodes.new ≡ nodes.old ++ node (Op.At 0) frame ∷ []) }
{
    let here = nodes.len();
    push_node(nodes, Op::At(0), frame)?;
    Ok(here)
}

fn set_node(nodes: &mut Items<Node>, here: usize, op: Op, frame: Option<usize>)
    requires { here < length nodes.old }
    ensures { nodes.new ≡ slice_set nodes.old here (node op frame) }
{
    nodes.set(here, Node { op, frame });
}
