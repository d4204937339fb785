//! Names of processes and variables.
ghost use Rattle.std.specs.Prelude.{◌≡◌, ◌↔◌, IsTrue, IfOk, Some, None, if◌then◌else◌};
ghost use Rattle.tb_terms.specs.Names.{is_ident};

use crate::NoMemory;
use crate::name::are_name_bytes;
use std::alloc::Global;
use std::marker::Model;

/// The name of a process or a variable: an upper-case ASCII letter, followed by ASCII letters, digits, `-`, and `_`.
/// Contracts see it as its bytes.
#[derive(Debug, Drop)]
pub struct Ident {
    bytes: Vec<u8>,
}

impl Model for Ident {
    ghost use Rattle.std.specs.Prelude.{List, ℕ, IsTrue};
    ghost use Rattle.tb_terms.specs.Names.{is_ident};

    ghost Value = { List ℕ };

    ghost view = { λ ident. ident.bytes.items };

    ghost invariant = { λ ident. IsTrue (is_ident ident.bytes.items) };
}

impl Ident {
    /// Returns the name with these bytes. `is_ident_bytes` tests whether bytes form a name.
    pub fn new(alloc: Global, bytes: &[u8]) -> Result<Ident, NoMemory>
        requires { IsTrue (is_ident bytes.now) }
        ensures { IfOk result (λ ident. ident ≡ bytes.now) }
    {
        let bytes = Vec::from_slice(alloc, bytes)?;
        Ok(Ident { bytes })
    }

    /// Returns the name with these bytes, or `None` if they don't form a name.
    pub fn from_bytes(alloc: Global, bytes: &[u8]) -> Result<Option<Ident>, NoMemory>
        ensures { IfOk result
            (λ ident. ident ≡ (if is_ident bytes.now then Some bytes.now else None)) }
    {
        if !is_ident_bytes(bytes) {
            return Ok(None);
        }
        Ok(Some(Ident::new(alloc, bytes)?))
    }

    /// Returns the name with these bytes, or `None` if they don't form a name. Takes no memory.
    pub fn from_vec(bytes: Vec<u8>) -> Option<Ident>
        ensures { result ≡ (if is_ident bytes.items then Some bytes.items else None) }
    {
        if !is_ident_bytes(bytes.as_slice()) {
            return None;
        }
        Some(Ident { bytes })
    }

    /// Returns the bytes of the name. Takes no memory.
    pub fn into_vec(self) -> Vec<u8>
        ensures { result.items ≡ self }
    {
        self.bytes
    }

    /// Returns the bytes of the name.
    pub fn as_bytes(&self) -> &[u8]
        ensures value { result.now ≡ self.now }
        ensures form { IsTrue (is_ident self.now) }
    {
        self.bytes.as_slice()
    }

    /// Returns whether both names have the same bytes.
    pub fn is_same(&self, other: &Ident) -> bool
        ensures { IsTrue result ↔ (self.now ≡ other.now) }
    {
        self.as_bytes() == other.as_bytes()
    }

    /// Returns the same name in memory of its own.
    pub fn copy(&self, alloc: Global) -> Result<Ident, NoMemory>
        ensures { IfOk result (λ copy. copy ≡ self.now) }
    {
        Ident::new(alloc, self.as_bytes())
    }
}

/// Returns whether these bytes form the name of a process or a variable.
pub fn is_ident_bytes(bytes: &[u8]) -> bool
    ensures { result ≡ is_ident bytes.now }
{
    match bytes.split_first() {
        None => false,
        Some((first, rest)) => first.is_ascii_uppercase() && are_name_bytes(rest),
    }
}
