//! Names that borrow their bytes from the source.
ghost use Rattle.std.specs.Prelude.{◌≡◌, IsTrue, IfOk};
ghost use Rattle.tb_terms.specs.Names.{is_name, is_ident};

use std::alloc::Global;
use std::marker::Model;
use tb_terms::{Ident, Name, NoMemory};

/// A name that begins with a lower-case letter. It borrows its bytes from the source. Contracts see it as its bytes.
#[derive(Drop)]
pub struct LowerWord<'a> {
    bytes: &'a [u8],
}

impl<'a> Model for LowerWord<'a> {
    ghost use Rattle.std.specs.Prelude.{List, ℕ, IsTrue};
    ghost use Rattle.tb_terms.specs.Names.{is_name};

    ghost Value = { List ℕ };

    ghost view = { λ word. word.bytes.now };

    ghost invariant = { λ word. IsTrue (is_name word.bytes.now) };
}

impl<'a> LowerWord<'a> {
    /// Returns the name that has these bytes.
    pub fn new(bytes: &'a [u8]) -> LowerWord<'a>
        requires { IsTrue (is_name bytes.now) }
        ensures { result ≡ bytes.now }
    {
        LowerWord { bytes }
    }

    /// Returns the bytes of the name.
    pub fn as_bytes(&self) -> &'a [u8]
        ensures value { result.now ≡ self.now }
        ensures form { IsTrue (is_name self.now) }
    {
        self.bytes
    }

    /// Returns the same name in memory of its own. Fails only if memory runs out.
    pub fn copy(&self, alloc: Global) -> Result<Name, NoMemory>
        ensures { IfOk result (λ name. name ≡ self.now) }
    {
        Name::new(alloc, self.as_bytes())
    }
}

/// A name that begins with an upper-case letter. It borrows its bytes from the source. Contracts see it as its bytes.
#[derive(Drop)]
pub struct UpperWord<'a> {
    bytes: &'a [u8],
}

impl<'a> Model for UpperWord<'a> {
    ghost use Rattle.std.specs.Prelude.{List, ℕ, IsTrue};
    ghost use Rattle.tb_terms.specs.Names.{is_ident};

    ghost Value = { List ℕ };

    ghost view = { λ word. word.bytes.now };

    ghost invariant = { λ word. IsTrue (is_ident word.bytes.now) };
}

impl<'a> UpperWord<'a> {
    /// Returns the name that has these bytes.
    pub fn new(bytes: &'a [u8]) -> UpperWord<'a>
        requires { IsTrue (is_ident bytes.now) }
        ensures { result ≡ bytes.now }
    {
        UpperWord { bytes }
    }

    /// Returns the bytes of the name.
    pub fn as_bytes(&self) -> &'a [u8]
        ensures value { result.now ≡ self.now }
        ensures form { IsTrue (is_ident self.now) }
    {
        self.bytes
    }

    /// Returns the same name in memory of its own. Fails only if memory runs out.
    pub fn copy(&self, alloc: Global) -> Result<Ident, NoMemory>
        ensures { IfOk result (λ name. name ≡ self.now) }
    {
        Ident::new(alloc, self.as_bytes())
    }
}
