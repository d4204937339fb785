//! The definitions of a script whose processes and tools take part in a log.

ghost use Rattle.std.specs.Prelude.{◌≡◌, slice_get, option_copied, option_and_then};
ghost use Rattle.tb_chart.specs.Numbers.{index_of, numbered};

use sqlite_items::at;
use tb_terms::{Ident, Name};

/// An atom of a process.
#[derive(Clone, Copy)]
pub struct Site {
    /// Its first token in the script: the bytes from `from` to before `to`.
    pub from: usize,
    pub to: usize,
    /// The definition of the process that it creates, from 0, if it creates one.
    pub creates: Option<u32>,
}

/// A definition of a process.
#[derive(Drop)]
pub struct Role {
    pub name: Ident,
    /// The atom with number n is at position n - 1.
    pub sites: Vec<Site>,
}

/// The definitions of a script: the processes with which it starts, each by its definition, and the processes and the tools.
#[derive(Drop)]
pub struct Cast {
    pub roots: Vec<u32>,
    pub roles: Vec<Role>,
    pub tools: Vec<Name>,
}

impl Role {
    ghost use Rattle.std.specs.Prelude.{◌≡◌};
    ghost use Rattle.tb_chart.specs.Players.{created_in};

    fn created(&self, atom: u32) -> Option<u32>
        ensures { result ≡ created_in self.now atom }
    {
        match numbered(self.sites.as_slice(), u64::from(atom)) {
            Some(site) => site.creates,
            None => None,
        }
    }
}

impl Cast {
    ghost use Rattle.std.specs.Prelude.{◌≡◌};
    ghost use Rattle.std.specs.Prelude.{IfNone, false};
    ghost use Rattle.std.specs.List.{list_any};
    ghost use Rattle.std.specs.Str.{bytes_eq};
    ghost use Rattle.tb_chart.specs.Players.{created};

    /// Returns which definition an atom creates a process of, if it creates one. Atoms are numbered from 1.
    pub fn created(&self, body: u32, atom: u32) -> Option<u32>
        ensures { result ≡ created self.now body atom }
    {
        match at(self.roles.as_slice(), body as usize) {
            Some(role) => role.created(atom),
            None => None,
        }
    }

    /// Returns the position of the tool that is declared with this name.
    pub fn tool(&self, name: &[u8]) -> Option<u32>
        ensures none { IfNone result
            (list_any (λ tool. bytes_eq tool name.now) self.now.tools.items ≡ false) }
    {
        let mut position: u32 = 0;
        for tool in self.tools.as_slice() {
            if tool.as_bytes() == name {
                return Some(position);
            }
            position = position.saturating_add(1);
        }
        None
    }

    /// Returns the name of a definition of a process, or `?` if there is none.
    pub fn process_name(&self, body: u32) -> &[u8] {
        match self.roles.get(body as usize) {
            Some(role) => role.name.as_bytes(),
            None => b"?",
        }
    }

    /// Returns the name of a tool, or `?` if there is none.
    pub fn tool_name(&self, tool: u32) -> &[u8] {
        match self.tools.get(tool as usize) {
            Some(name) => name.as_bytes(),
            None => b"?",
        }
    }
}

/// Returns the index of what has this number, counted from 1. Nothing has the number 0.
pub(crate) fn index_of(number: u64) -> Option<usize>
    ensures { result ≡ index_of number }
{
    match number.checked_sub(1) {
        Some(index) => Some(index as usize),
        None => None,
    }
}

/// Returns what has this number in a slice, counted from 1.
pub(crate) fn numbered<T>(items: &[T], number: u64) -> Option<&T>
    ensures { option_copied result ≡ numbered items.now number }
{
    match index_of(number) {
        Some(index) => at(items, index),
        None => None,
    }
}
