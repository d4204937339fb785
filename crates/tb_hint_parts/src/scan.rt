//! The surroundings of a token: the call in which it is an argument, and the definitions and declarations there.

use crate::source::{Source, is_upper};
use tb_terms::NoMemory;

/// The token before the bracket around an argument, and the number of the argument, from 0.
#[derive(Clone, Copy)]
pub struct Head {
    /// The token before the bracket: the name of a call, an atom or a term, if the bracket follows one.
    pub token: usize,
    /// The number of the argument, from 0.
    pub argument: usize,
}

/// Returns the token before the innermost bracket that is open before `token`, and the number of the argument that begins at `token`.
pub fn head_of(source: &Source, token: usize) -> Option<Head> {
    let mut depth: usize = 0;
    let mut argument: usize = 0;
    for position in (0..token).rev() {
        match source.word(position) {
            b")" | b"]" => depth = depth.saturating_add(1),
            b"(" | b"[" => {
                if depth == 0 {
                    let token = position.saturating_sub(1);
                    return Some(Head { token, argument });
                }
                depth = depth.saturating_sub(1);
            }
            b"," if depth == 0 => argument = argument.saturating_add(1),
            _ => {}
        }
    }
    None
}

/// Returns the number of arguments in the parentheses after this token: 0 if there are no parentheses, and 1 if they are empty.
pub fn count_arguments(source: &Source, token: usize) -> usize {
    if !source.is(token.saturating_add(1), "(") {
        return 0;
    }
    let mut depth: usize = 0;
    let mut count: usize = 1;
    for position in token.saturating_add(2)..source.tokens.len() {
        match source.word(position) {
            b"(" | b"[" => depth = depth.saturating_add(1),
            b")" | b"]" => {
                if depth == 0 {
                    return count;
                }
                depth = depth.saturating_sub(1);
            }
            b"," if depth == 0 => count = count.saturating_add(1),
            _ => {}
        }
    }
    count
}

/// Returns the token of the name in the first definition with this keyword and this name.
pub fn definition_of(source: &Source, keyword: &str, name: &[u8]) -> Option<usize> {
    for position in 0..source.tokens.len() {
        if source.word(position) == name && source.has_before(position, 1, keyword) {
            return Some(position);
        }
    }
    None
}

/// Returns the token of the parameter with this number, from 0, of the process whose name is at `definition`.
pub fn parameter_of(source: &Source, definition: usize, number: usize) -> Option<usize> {
    let mut left = number;
    for position in definition.saturating_add(1)..source.tokens.len() {
        let word = source.word(position);
        if word == b"is".as_slice() {
            return None;
        }
        if is_upper(word) {
            if left == 0 {
                return Some(position);
            }
            left = left.saturating_sub(1);
        }
    }
    None
}

/// Returns the number of parameters of the process whose name is at `definition`.
pub fn count_parameters(source: &Source, definition: usize) -> usize {
    let mut count: usize = 0;
    for position in definition.saturating_add(1)..source.tokens.len() {
        let word = source.word(position);
        if word == b"is".as_slice() {
            return count;
        }
        if is_upper(word) {
            count = count.saturating_add(1);
        }
    }
    count
}

/// Returns whether the parameter at this token is a result parameter.
pub fn is_result(source: &Source, parameter: usize) -> bool {
    source.is(type_end(source, parameter), "?")
}

/// Adds the type that the declaration at this token gives its name.
pub(crate) fn push_type(
    source: &Source,
    declared: usize,
    into: &mut Vec<u8>,
) -> Result<(), NoMemory> {
    for token in declared.saturating_add(2)..type_end(source, declared) {
        into.extend_from_slice(source.word(token))?;
    }
    Ok(())
}

/// Adds the parameters of the process whose name is at this token, in parentheses, if it has any.
pub(crate) fn push_parameters(
    source: &Source,
    definition: usize,
    into: &mut Vec<u8>,
) -> Result<(), NoMemory> {
    let mut begin: &'static str = "(";
    for position in definition.saturating_add(1)..source.tokens.len() {
        if source.is(position, "is") {
            break;
        }
        if is_upper(source.word(position)) {
            into.extend_from_slice(begin.as_bytes())?;
            push_parameter(source, position, into)?;
            begin = ", ";
        }
    }
    if begin.len() > 1 {
        into.push(b')')?;
    }
    Ok(())
}

/// Adds the name of a parameter, with its `?` if it is a result parameter.
fn push_parameter(source: &Source, parameter: usize, into: &mut Vec<u8>) -> Result<(), NoMemory> {
    into.extend_from_slice(source.word(parameter))?;
    if is_result(source, parameter) {
        into.push(b'?')?;
    }
    Ok(())
}

/// Returns the token after the type that the declaration at this token gives its name.
fn type_end(source: &Source, declared: usize) -> usize {
    let mut depth: usize = 0;
    for position in declared.saturating_add(2)..source.tokens.len() {
        match source.word(position) {
            b"(" => depth = depth.saturating_add(1),
            b")" => {
                if depth == 0 {
                    return position;
                }
                depth = depth.saturating_sub(1);
            }
            b"," | b"?" | b"in" => return position,
            _ => {}
        }
    }
    source.tokens.len()
}

/// Returns the token of the innermost `let` or `process` whose variables are known at this token. Returns `None` if there is none, for
/// example in a tool's definition and in `toolbus(..)`.
pub fn scope_of(source: &Source, token: usize) -> Option<usize> {
    if source.is(token, "process") {
        return None;
    }
    let mut depth: usize = 0;
    for position in (0..token).rev() {
        if source.is(position, "process") {
            return Some(position);
        }
        if source.is(position, "tool") || source.is(position, "toolbus") {
            return None;
        }
        if source.is(position, "endlet") {
            depth = depth.saturating_add(1);
        } else if source.is(position, "let") {
            if depth == 0 {
                return Some(position);
            }
            depth = depth.saturating_sub(1);
        }
    }
    None
}

/// Returns the first token at which this `let` or `process` can declare a variable.
pub(crate) fn first_declared(source: &Source, scope: usize) -> usize {
    if source.is(scope, "process") {
        return scope.saturating_add(2);
    }
    scope.saturating_add(1)
}

/// Returns the token that declares the variable with this name which is known at `token`.
pub fn declaration_of(source: &Source, token: usize, name: &[u8]) -> Option<usize> {
    let mut inner = token;
    for _turn in 0..source.tokens.len() {
        let scope = scope_of(source, inner)?;
        if let Some(declared) = declared_in(source, scope, name) {
            return Some(declared);
        }
        inner = scope;
    }
    None
}

/// Returns the first token at which this `let` or `process` declares the name.
pub fn declared_in(source: &Source, scope: usize, name: &[u8]) -> Option<usize> {
    for position in first_declared(source, scope)..source.tokens.len() {
        let word = source.word(position);
        if word == name {
            return Some(position);
        }
        if word == b"in".as_slice() || word == b"is".as_slice() {
            return None;
        }
    }
    None
}
