//! The variables that are known at a place.

ghost use Rattle.std.specs.Prelude.{◌≡◌, map};
ghost use Rattle.std.specs.Option.{option_copied};
ghost use Rattle.tb_types.specs.Scopes.{visible, sort_in, known_formal, known_var};

use tb_syntax::{Formal, Var};
use tb_terms::{Ident, Sort};

/// A variable with its type.
pub struct Known {
    /// The name of the variable.
    pub name: Ident,
    /// The type of the variable.
    pub sort: Sort,
}

/// The variables that are known at a place: the parameters, and the variables of each `let` around it.
#[derive(Clone, Copy)]
pub enum Scope<'a> {
    /// The parameters of the process.
    Formals(&'a [Formal]),
    /// The variables of a `let`, and the variables around this `let`.
    Inner(&'a [Var], &'a Scope<'a>),
}

/// Returns the type of the innermost variable of this name.
pub(crate) fn sort_of<'a>(scope: &Scope<'a>, name: &Ident) -> Option<&'a Sort>
    ensures { option_copied result ≡ sort_in (visible scope.now) name.now }
{
    match scope {
        Scope::Formals(formals) => sort_of_formal(formals, name),
        Scope::Inner(vars, outer) => match sort_of_var(vars, name) {
            Some(sort) => Some(sort),
            None => sort_of(outer, name),
        },
    }
}

fn sort_of_formal<'a>(formals: &'a [Formal], name: &Ident) -> Option<&'a Sort>
    ensures { option_copied result ≡ sort_in (map known_formal formals.now) name.now }
{
    for formal in formals {
        if formal.name.as_bytes() == name.as_bytes() {
            return Some(&formal.sort);
        }
    }
    None
}

fn sort_of_var<'a>(vars: &'a [Var], name: &Ident) -> Option<&'a Sort>
    ensures { option_copied result ≡ sort_in (map known_var vars.now) name.now }
{
    for var in vars {
        if var.name.as_bytes() == name.as_bytes() {
            return Some(&var.sort);
        }
    }
    None
}
