//! The part of a sentence that says what an expression is that doesn't fit its place.

use crate::names::note_declared;
use crate::wanted::shape_text;
use tb_hint_parts::{Said, declaration_of, is_lower, signature_of};

/// Says which expression begins at this token, and its type.
pub(crate) fn say_given(said: &mut Said, token: usize) {
    let source = said.source;
    let word = source.word(token);
    match word {
        [b'"', ..] => said.say("% is a str", &[word]),
        [b'[', ..] => said.say("this list isn't, or not all of its members fit", &[]),
        [b'<', ..] => said.say("a placeholder stands here", &[]),
        [b'A'..=b'Z', ..] => say_variable(said, token, word),
        [b'a'..=b'z', ..] => say_name(said, token, word),
        _ => said.say("`%` is an int", &[word]),
    }
}

fn say_variable(said: &mut Said, token: usize, name: &[u8]) {
    let source = said.source;
    let mark: &[u8] = if source.is(token.saturating_add(1), "?") {
        b"?"
    } else {
        b""
    };
    match declaration_of(&source, token, name) {
        None => said.say("`%%` isn't declared", &[name, mark]),
        Some(declared) => {
            said.say("`%%` has the type ", &[name, mark]);
            said.say_type(declared);
            note_declared(said, declared);
        }
    }
}

/// Returns whether a term begins at this token that looks like a call of a function, while no function has its name.
pub(crate) fn is_no_call(said: &mut Said, token: usize) -> bool {
    let source = said.source;
    let word = source.word(token);
    is_lower(word) && source.is(token.saturating_add(1), "(") && signature_of(said, word).is_none()
}

fn say_name(said: &mut Said, token: usize, name: &[u8]) {
    let source = said.source;
    if source.is(token.saturating_add(1), "(") {
        return say_application(said, name);
    }
    if source.is(token, "true") || source.is(token, "false") {
        return said.say("`%` is a bool", &[name]);
    }
    said.say("`%` is a plain term", &[name]);
}

fn say_application(said: &mut Said, name: &[u8]) {
    let Some(signature) = signature_of(said, name) else {
        return said.say(
            "no function is named `%`, so `%(..)` is a term",
            &[name, name],
        );
    };
    said.say("the function `%` gives the type ", &[name]);
    said.say("%", &[shape_text(signature.result)]);
}
