//! The tree of a body, with the operators of the process algebra, and the settings of a `let`.
ghost use Rattle.std.specs.Prelude.{◌≡◌, IfOk};

use std::alloc::Global;
use tb_terms::{Boxed, Expr, Items, NoMemory};

/// The behaviour of a process, as a tree of operators of the process algebra. Atoms are numbers, from 1, in the order of the source.
#[derive(Drop)]
pub enum Tree {
    /// The atom with this number.
    At(u32),
    /// The first side, then the second.
    Seq(Boxed<Tree>, Boxed<Tree>),
    /// One of the two sides.
    Alt(Boxed<Tree>, Boxed<Tree>),
    /// The first side any number of times, then the second.
    Star(Boxed<Tree>, Boxed<Tree>),
    /// Both sides, with their atoms interleaved.
    Par(Boxed<Tree>, Boxed<Tree>),
    /// The first side, until the second side takes a step. If the first side ends, the whole ends.
    Disrupt(Boxed<Tree>, Boxed<Tree>),
    /// The first side if the test is true. The second side, if there is one, if the test is false.
    If(Expr, Boxed<Tree>, Option<Boxed<Tree>>),
    /// The tree, after all settings are made at once.
    Let(Settings, Boxed<Tree>),
}

/// A slot and the value that it gets.
#[derive(Drop)]
pub struct Setting {
    /// The slot that is set.
    pub slot: u32,
    /// The start value, or `None` for the initial value of the slot's type.
    pub start: Option<Expr>,
}

/// Settings that are made at once.
pub type Settings = Items<Setting>;

impl Tree {
    /// Returns an equal tree in memory of its own.
    #[cycle(copy)]
    pub fn copy(&self, alloc: Global) -> Result<Tree, NoMemory>
        ensures { IfOk result (λ copy. copy ≡ self.now) }
    {
        match self {
            Tree::At(atom) => Ok(Tree::At(*atom)),
            Tree::Seq(x, y) => Ok(Tree::Seq(copy_part(alloc, x)?, copy_part(alloc, y)?)),
            Tree::Alt(x, y) => Ok(Tree::Alt(copy_part(alloc, x)?, copy_part(alloc, y)?)),
            Tree::Star(x, y) => Ok(Tree::Star(copy_part(alloc, x)?, copy_part(alloc, y)?)),
            Tree::Par(x, y) => Ok(Tree::Par(copy_part(alloc, x)?, copy_part(alloc, y)?)),
            Tree::Disrupt(x, y) => Ok(Tree::Disrupt(copy_part(alloc, x)?, copy_part(alloc, y)?)),
            Tree::If(test, x, y) => {
                let test = test.copy(alloc)?;
                let x = copy_part(alloc, x)?;
                let y = match y {
                    Some(y) => Some(copy_part(alloc, y)?),
                    None => None,
                };
                Ok(Tree::If(test, x, y))
            }
            Tree::Let(settings, x) => {
                let settings = copy_settings(alloc, settings)?;
                Ok(Tree::Let(settings, copy_part(alloc, x)?))
            }
        }
    }
}

#[cycle(copy)]
fn copy_part(alloc: Global, part: &Boxed<Tree>) -> Result<Boxed<Tree>, NoMemory>
    ensures { IfOk result (λ copy. copy ≡ part.now) }
{
    let copy = part.get().copy(alloc)?;
    Ok(Boxed::new(alloc, copy)?)
}

impl Setting {
    /// Returns an equal setting in memory of its own.
    pub fn copy(&self, alloc: Global) -> Result<Setting, NoMemory>
        ensures { IfOk result (λ copy. copy ≡ self.now) }
    {
        let start = match &self.start {
            Some(value) => Some(value.copy(alloc)?),
            None => None,
        };
        Ok(Setting {
            slot: self.slot,
            start,
        })
    }
}

/// Returns a copy of these settings, in the same order.
pub fn copy_settings(alloc: Global, settings: &Settings) -> Result<Settings, NoMemory>
    ensures { IfOk result (λ copies. copies ≡ settings.now) }
{
    let mut copies = Items::new(alloc);
    for setting in settings.as_slice() {
        copies.push(setting.copy(alloc)?)?;
    }
    Ok(copies)
}
