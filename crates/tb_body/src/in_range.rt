//! Checks that the tree and the atoms of a body are in range and within the limits.
ghost use Rattle.std.specs.Prelude.{◌≡◌, ◌++◌, OnOk, nat_le};
ghost use Rattle.std.specs.List.{list_all};
ghost use Rattle.tb_body.specs.Acts.{is_act_in_body, is_atom_in_body};
ghost use Rattle.tb_body.specs.Exprs.{is_value};
ghost use Rattle.tb_body.specs.InRange.{ascends_by_one, is_start, is_setting_in_range, is_tree_in_range};
ghost use Rattle.tb_body.specs.Trees.{tree_atoms, tree_levels};

use crate::positions::{
    all_values, is_receiving, is_value, some_receiving, some_tests, some_values,
};
use crate::{Act, Atom, Setting, Time, Tree};
use tb_terms::{Items, NoMemory};

/// Adds the numbers of the tree's atoms, in the order of the source.
#[cycle(add_atoms)]
pub(crate) fn add_atoms(tree: &Tree, into: &mut Items<u32>) -> Result<(), NoMemory>
    ensures { OnOk result (into.new ≡ into.old ++ tree_atoms tree.now) }
{
    match tree {
        Tree::At(atom) => Ok(into.push(*atom)?),
        Tree::Seq(x, y)
        | Tree::Alt(x, y)
        | Tree::Star(x, y)
        | Tree::Par(x, y)
        | Tree::Disrupt(x, y) => {
            add_atoms(x.get(), into)?;
            add_atoms(y.get(), into)?;
            Ok(())
        }
        Tree::If(_, x, Some(y)) => {
            add_atoms(x.get(), into)?;
            add_atoms(y.get(), into)?;
            Ok(())
        }
        Tree::If(_, x, None) => add_atoms(x.get(), into),
        Tree::Let(_, x) => add_atoms(x.get(), into),
    }
}

/// Returns whether the numbers are 1, 2, 3, and so on, without gaps.
pub(crate) fn ascend_from_one(numbers: &[u32]) -> bool
    ensures { result ≡ ascends_by_one 1 numbers.now }
{
    for (position, number) in numbers.iter().enumerate() {
        if *number as usize != position + 1 {
            return false;
        }
    }
    true
}

/// Returns whether the tree has at most this depth.
#[cycle(has_levels)]
pub(crate) fn has_levels(tree: &Tree, most: usize) -> bool
    ensures { result ≡ nat_le (tree_levels tree.now) most }
{
    if most == 0 {
        return false;
    }
    match tree {
        Tree::At(_) => true,
        Tree::Seq(x, y)
        | Tree::Alt(x, y)
        | Tree::Star(x, y)
        | Tree::Par(x, y)
        | Tree::Disrupt(x, y) => has_levels(x.get(), most - 1) && has_levels(y.get(), most - 1),
        Tree::If(_, x, Some(y)) => has_levels(x.get(), most - 1) && has_levels(y.get(), most - 1),
        Tree::If(_, x, None) => has_levels(x.get(), most - 1),
        Tree::Let(_, x) => has_levels(x.get(), most - 1),
    }
}

/// Returns whether tests and start values are values, and each slot that is set exists.
#[cycle(is_tree_in_range)]
pub(crate) fn is_tree_in_range(slots: usize, tree: &Tree) -> bool
    ensures { result ≡ is_tree_in_range slots tree.now }
{
    match tree {
        Tree::At(_) => true,
        Tree::Seq(x, y)
        | Tree::Alt(x, y)
        | Tree::Star(x, y)
        | Tree::Par(x, y)
        | Tree::Disrupt(x, y) => {
            is_tree_in_range(slots, x.get()) && is_tree_in_range(slots, y.get())
        }
        Tree::If(test, x, y) => {
            if !is_value(slots, test) || !is_tree_in_range(slots, x.get()) {
                return false;
            }
            match y {
                Some(y) => is_tree_in_range(slots, y.get()),
                None => true,
            }
        }
        Tree::Let(settings, x) => {
            are_settings_in_range(slots, settings.as_slice()) && is_tree_in_range(slots, x.get())
        }
    }
}

fn are_settings_in_range(slots: usize, settings: &[Setting]) -> bool
    ensures { result ≡ list_all (is_setting_in_range slots) settings.now }
{
    for setting in settings {
        if !is_setting_in_range(slots, setting) {
            return false;
        }
    }
    true
}

fn is_setting_in_range(slots: usize, setting: &Setting) -> bool
    ensures { result ≡ is_setting_in_range slots setting.now }
{
    if (setting.slot as usize) >= slots {
        return false;
    }
    match &setting.start {
        Some(value) => is_value(slots, value),
        None => true,
    }
}

/// Returns whether each argument of the act is allowed at its place, and each slot exists.
fn is_act_in_body(slots: usize, act: &Act) -> bool
    ensures { result ≡ is_act_in_body slots act.now }
{
    match act {
        Act::Delta | Act::Tau => true,
        Act::SndMsg(exprs) | Act::SndNote(exprs) | Act::Printf(exprs) => {
            some_values(slots, exprs.as_slice())
        }
        Act::RecMsg(exprs) | Act::RecNote(exprs) => some_receiving(slots, exprs.as_slice()),
        Act::NoNote(exprs) | Act::Subscribe(exprs) | Act::Unsubscribe(exprs) => {
            some_tests(slots, exprs.as_slice())
        }
        Act::Create { actuals, slot, .. } => {
            all_values(slots, actuals.as_slice()) && (*slot as usize) < slots
        }
        Act::Set { slot, value } => (*slot as usize) < slots && is_value(slots, value),
        Act::Execute { slot, .. } | Act::RecConnect { slot, .. } => (*slot as usize) < slots,
        Act::RecDisconnectAny { slot, .. } => (*slot as usize) < slots,
        Act::RecDisconnect(one) | Act::Shutdown(one) => is_value(slots, one),
        Act::SndEval(tool, e) | Act::SndDo(tool, e) | Act::SndTerminate(tool, e) => {
            is_value(slots, tool) && is_value(slots, e)
        }
        Act::RecValue(tool, e) => is_value(slots, tool) && is_receiving(slots, e),
        Act::RecEvent(tool, exprs) => {
            is_value(slots, tool) && some_receiving(slots, exprs.as_slice())
        }
        Act::SndAckEvent(tool, exprs) => {
            is_value(slots, tool) && some_values(slots, exprs.as_slice())
        }
    }
}

fn are_times_values(slots: usize, times: &[Time]) -> bool
    ensures { result ≡ list_all (λ time. is_value slots time.value) times.now }
{
    for time in times {
        if !is_value(slots, &time.value) {
            return false;
        }
    }
    true
}

fn is_atom_in_body(slots: usize, atom: &Atom) -> bool
    ensures { result ≡ is_atom_in_body slots atom.now }
{
    is_act_in_body(slots, &atom.act) && are_times_values(slots, atom.times.as_slice())
}

pub(crate) fn are_atoms_in_body(slots: usize, atoms: &[Atom]) -> bool
    ensures { result ≡ list_all (is_atom_in_body slots) atoms.now }
{
    for atom in atoms {
        if !is_atom_in_body(slots, atom) {
            return false;
        }
    }
    true
}
