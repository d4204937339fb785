//! The functions of the language: their signatures, and the functions that replace operators of other languages.

use crate::said::Said;
use crate::source::text_of;
use tb_func::{Signature, function, signature};
use tb_terms::Name;

/// The operators of other languages, each with the functions that replace it.
static OPERATORS: [(&str, &str); 5] = [
    ("<", "`less(x, y)` or `less-equal(x, y)`"),
    (">", "`greater(x, y)` or `greater-equal(x, y)`"),
    ("=", "`equal(x, y)`"),
    ("+", "`add(x, y)`"),
    ("*", "`mul(x, y)`"),
];

/// Returns the signature of the function with this name, if there is such a function. If memory runs out, records this in `said`.
pub fn signature_of(said: &mut Said, word: &[u8]) -> Option<Signature> {
    match Name::from_bytes(said.alloc, word) {
        Ok(Some(name)) => signature_named(&name),
        Ok(None) => None,
        Err(_) => {
            said.lack();
            None
        }
    }
}

fn signature_named(name: &Name) -> Option<Signature> {
    match function(name) {
        Some(func) => Some(signature(func)),
        None => None,
    }
}

/// Adds help about the operator in the token before this one, if the operator is the second token after a `:=`.
pub fn say_assigned_operator(said: &mut Said, token: usize) {
    let source = said.source;
    if source.has_before(token, 3, ":=") {
        say_functions(said, source.word(token.saturating_sub(1)));
    }
}

/// Adds help that names the functions to write in place of this operator. If the word isn't an operator of the table, adds nothing.
pub fn say_functions(said: &mut Said, operator: &[u8]) {
    if let Some(functions) = text_of(OPERATORS.as_slice(), operator) {
        said.help(
            "expressions have no operators: write %",
            &[functions.as_bytes()],
        );
    }
}
