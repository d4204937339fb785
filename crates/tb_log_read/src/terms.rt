//! Reads the terms in a line.
ghost use Rattle.std.specs.Prelude.{◌≡◌, ◌↔◌, [], IsTrue, IfOk};
ghost use Rattle.tb_read.specs.declared.fault.TermFault.{TermFault};
ghost use Rattle.tb_log_read.specs.Helpers.Terms.{term_of, terms_of, label_terms};

use crate::buffers::LineBuffers;
use crate::part::next_part;
use std::alloc::Global;
use tb_read::{TermFault, read_term};
use tb_terms::{Items, NoMemory, Term, Terms};

/// Returns the terms of a step. If there are no bytes, there are no terms.
pub(crate) fn read_label_terms(
    alloc: Global,
    bytes: &[u8],
    buffers: &mut LineBuffers,
) -> Result<Option<Terms>, NoMemory>
    ensures { IfOk result (λ found. found ≡ label_terms bytes.now) }
{
    if bytes.is_empty() {
        return Ok(Some(Items::new(alloc)));
    }
    let terms = buffers.take_terms(alloc);
    read_terms_into(alloc, bytes, terms)
}

/// Returns the terms whose texts the bytes are, split on commas. Returns `None` if a part isn't a term within the limits.
pub(crate) fn read_terms(alloc: Global, bytes: &[u8]) -> Result<Option<Terms>, NoMemory>
    ensures { IfOk result (λ found. found ≡ terms_of bytes.now) }
{
    read_terms_into(alloc, bytes, Items::new(alloc))
}

/// Adds the terms to an empty list and returns the list. Returns `None` if a part isn't a term within the limits.
fn read_terms_into(alloc: Global, bytes: &[u8], mut terms: Terms) -> Result<Option<Terms>, NoMemory>
    requires { terms ≡ [] }
    ensures { IfOk result (λ found. found ≡ terms_of bytes.now) }
{
    let mut rest = bytes;
    'parts: loop {
        let (part, more) = next_part(rest);
        let Some(term) = read_one(alloc, part)? else {
            return Ok(None);
        };
        terms.push(term)?;
        match more {
            Some(behind) => rest = behind,
            None => return Ok(Some(terms)),
        }
    }
}

/// Returns the term with this text, or `None` if there is no such term within the limits.
pub(crate) fn read_one(alloc: Global, bytes: &[u8]) -> Result<Option<Term>, NoMemory>
    ensures { IfOk result (λ found. found ≡ term_of bytes.now) }
{
    match read_term(alloc, bytes) {
        Ok(term) => Ok(Some(term)),
        Err(fault) if is_of_memory(fault) => Err(NoMemory),
        Err(_) => Ok(None),
    }
}

fn is_of_memory(fault: TermFault) -> bool
    ensures { IsTrue result ↔ (fault ≡ TermFault.NoMemory) }
{
    matches!(fault, TermFault::NoMemory)
}
