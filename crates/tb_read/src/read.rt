//! The parsing of a source as a term.
ghost use Rattle.std.specs.Prelude.{◌≡◌, ◌≢◌, ◌<◌, ◌⊎◌, IfOk, IfErr, Ok, Err};
ghost use Rattle.tb_terms.specs.declared.term.Term.{Term};
ghost use Rattle.tb_terms.specs.Sizes.{IsWithinLimits};
ghost use Rattle.tb_read.specs.Spelling.{Reads};
ghost use Rattle.tb_read.specs.Helpers.Limits.{over_limit};
ghost use Rattle.tb_read.specs.Reading.{IsWithin, HasFaultWithin, HasFault};
ghost use Rattle.tb_read.specs.declared.fault.TermFault.{TermFault};

use crate::TermFault;
use crate::build::build;
use crate::limits::{Limits, tokens_levels, tokens_size};
use crate::scan::scan;
use crate::token::Token;
use std::alloc::Global;
use tb_terms::{MOST_TERM_LEVELS, MOST_TERM_SIZE, Term};

/// Returns the term that the source parses as, if it is within the limits of size and depth.
pub fn read_term(alloc: Global, bytes: &[u8]) -> Result<Term, TermFault>
    ensures found { IfOk result (λ term. Reads bytes.now term × IsWithinLimits term) }

    // If the source parses as a term within the limits, the call returns this term or `NoMemory`.
    ensures only { (term : Term) → Reads bytes.now term → IsWithinLimits term
        → (result ≡ Ok term) ⊎ (result ≡ Err TermFault.NoMemory) }
    ensures fault { IfErr result (HasFault bytes.now) }

    // If the source has an error other than `NoMemory`, the call returns this error or `NoMemory`.
    ensures exact { (f : TermFault) → HasFault bytes.now f → f ≢ TermFault.NoMemory
        → (result ≡ Err f) ⊎ (result ≡ Err TermFault.NoMemory) }
{
    let limits = Limits {
        size: MOST_TERM_SIZE,
        levels: MOST_TERM_LEVELS,
    };
    read_within(alloc, bytes, limits)
}

/// Returns the term that the source parses as, if it is within these limits. `TooLarge` and `TooDeep` refer to these limits.
pub fn read_within(alloc: Global, bytes: &[u8], limits: Limits) -> Result<Term, TermFault>
    requires { limits.size < usize.MAX }
    ensures found { IfOk result
        (λ term. Reads bytes.now term × IsWithin limits.size limits.levels term) }

    // If the source parses as a term within the limits, the call returns this term or `NoMemory`.
    ensures only { (term : Term) → Reads bytes.now term → IsWithin limits.size limits.levels term
        → (result ≡ Ok term) ⊎ (result ≡ Err TermFault.NoMemory) }
    ensures fault { IfErr result (HasFaultWithin limits.size limits.levels bytes.now) }

    // If the source has an error other than `NoMemory`, the call returns this error or `NoMemory`.
    ensures exact { (f : TermFault) → HasFaultWithin limits.size limits.levels bytes.now f
        → f ≢ TermFault.NoMemory → (result ≡ Err f) ⊎ (result ≡ Err TermFault.NoMemory) }
{
    read(alloc, bytes, limits)
}

fn read(alloc: Global, bytes: &[u8], limits: Limits) -> Result<Term, TermFault>
    requires { limits.size < usize.MAX }
    ensures found { IfOk result
        (λ term. Reads bytes.now term × IsWithin limits.size limits.levels term) }
    ensures fault { IfErr result (HasFaultWithin limits.size limits.levels bytes.now) }
{
    let tokens = scan(alloc, bytes)?;
    if let Some(fault) = over_limit(tokens.as_slice(), limits) {
        return Err(fault);
    }
    match build(alloc, tokens)? {
        Some(term) => Ok(term),
        None => unreachable!(),
    }
}

fn over_limit(tokens: &[Token], limits: Limits) -> Option<TermFault>
    requires { limits.size < usize.MAX }
    ensures { result ≡ over_limit limits.size limits.levels tokens.now }
{
    if tokens_size(tokens) > limits.size {
        Some(TermFault::TooLarge)
    } else if tokens_levels(tokens) > limits.levels {
        Some(TermFault::TooDeep)
    } else {
        None
    }
}
