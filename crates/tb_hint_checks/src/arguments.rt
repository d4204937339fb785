//! The sentences about wrong numbers of arguments, and about arguments of a wrong kind.

use crate::names::say_definition;
use tb_hint_parts::{
    Said, Source, count_arguments, count_parameters, definition_of, head_of, is_upper,
    parameter_of, say_form, scope_of, signature_of, text_of,
};
use tb_syntax::{AtomWord, atom_word};

/// The reason why an argument must be a variable with `?`, by the word of the atom.
static RESULTS: [(&str, &str); 3] = [
    (
        "create",
        "the second argument of `create` must be a variable with `?`, which takes the number of the process",
    ),
    (
        "execute",
        "the second argument of `execute` must be a variable with `?`, which takes the tool",
    ),
    (
        "rec-connect",
        "the argument of `rec-connect` must be a variable with `?`, which takes the tool",
    ),
];

/// Says that the call, atom or function at this token has a wrong number of arguments.
pub(crate) fn say_count(said: &mut Said, token: usize) {
    let source = said.source;
    let word = source.word(token);
    let given = count_arguments(&source, token);
    if is_upper(word) {
        say_process_count(said, word, given);
    } else if let Some(atom) = atom_word(word) {
        say_atom_count(said, atom, given);
    } else {
        say_function_count(said, word, given);
    }
}

fn say_process_count(said: &mut Said, name: &[u8], given: usize) {
    let source = said.source;
    let definition = definition_of(&source, "process", name).unwrap_or(0);
    said.say("the process `%` has ", &[name]);
    said.say_count(count_parameters(&source, definition), "parameter");
    said.say(", but is given ", &[]);
    said.say_count(given, "argument");
    say_definition(said, "process", name);
    said.help_call(definition);
}

fn say_atom_count(said: &mut Said, atom: AtomWord, given: usize) {
    let word = atom.text().as_bytes();
    said.say("the atom `%` takes ", &[word]);
    say_taken(said, atom);
    said.say(", but is given ", &[]);
    said.say_number(given);
    say_form(said, word);
}

/// Says how many arguments an atom takes.
fn say_taken(said: &mut Said, atom: AtomWord) {
    if atom.fewest() == 0 {
        return said.say("no arguments", &[]);
    }
    said.say_count(atom.fewest(), "argument");
    if atom.takes_more() {
        said.say(" or more", &[]);
    }
}

fn say_function_count(said: &mut Said, word: &[u8], given: usize) {
    let wanted = match signature_of(said, word) {
        Some(signature) => signature.arity as usize,
        None => 0,
    };
    said.say("the function `%` takes ", &[word]);
    said.say_count(wanted, "argument");
    said.say(", but is given ", &[]);
    said.say_number(given);
}

/// Says that the argument at this token isn't a variable with `?`.
pub(crate) fn say_not_result(said: &mut Said, token: usize) {
    let source = said.source;
    let text = source.word(token);
    let Some(head) = head_of(&source, token) else {
        return said.say("`%` is no variable with `?`", &[text]);
    };
    let word = source.word(head.token);
    if !is_upper(word) {
        let sentence = text_of(RESULTS.as_slice(), word);
        said.say(sentence.unwrap_or("this must be a variable with `?`"), &[]);
        say_instead(said, text);
        return say_mark(said, text);
    }
    let definition = definition_of(&source, "process", word).unwrap_or(0);
    let parameter = parameter_of(&source, definition, head.argument).unwrap_or(0);
    said.say(
        "the result parameter `%` of `%` needs a variable with `?`",
        &[source.word(parameter), word],
    );
    say_instead(said, text);
    if is_started(&source, head.token) {
        return said.help(
            "neither `toolbus(..)` nor `create` can start a process with a result parameter",
            &[],
        );
    }
    say_mark(said, text);
}

/// Says what is written in place of a variable with `?`.
fn say_instead(said: &mut Said, text: &[u8]) {
    match text {
        [b'A'..=b'Z', ..] => said.say(", but `%` has no `?`", &[text]),
        [b'<', ..] => said.say(", but a placeholder stands here", &[]),
        [b'[', ..] => said.say(", but a list stands here", &[]),
        _ => said.say(", but `%` is no variable", &[text]),
    }
}

/// Adds help that shows how to write this variable so that it takes a value.
fn say_mark(said: &mut Said, text: &[u8]) {
    if is_upper(text) {
        said.help("write `%?`", &[text]);
    }
}

/// Returns whether the process that is named at this token is a root, or the process of a `create`.
fn is_started(source: &Source, token: usize) -> bool {
    scope_of(source, token).is_none() || source.has_before(token, 2, "create")
}

/// Says that a variable with `?` or a placeholder is in a place where no value is taken or matched.
pub(crate) fn say_misplaced(said: &mut Said, token: usize) {
    let source = said.source;
    let text = source.word(token);
    if !is_upper(text) {
        said.say(
            "a placeholder matches a value, and no value is matched here",
            &[],
        );
        return said.help(
            "placeholders may stand in the arguments of `rec-msg`, `rec-note`, `rec-value`, `rec-event`, `no-note`, `subscribe` and `unsubscribe`",
            &[],
        );
    }
    said.say(
        "`%?` takes a value, and no value can be taken here",
        &[text],
    );
    said.help("to use the value of `%`, write `%`", &[text, text]);
    say_takers(said, token, text);
}

/// Adds help that says where the variable of this name can take a value.
fn say_takers(said: &mut Said, token: usize, name: &[u8]) {
    said.help(
        "to take a value, write `%?` in `rec-msg(..)`, `rec-note(..)`, `rec-value(T, ..)` or `rec-event(T, ..)`",
        &[name],
    );
    said.help(
        "or alone as the variable of `create`, `execute`, `rec-connect`, `rec-disconnect` or of a parameter with `?`",
        &[],
    );
    let Some(head) = head_of(&said.source, token) else {
        return;
    };
    let word = said.source.word(head.token);
    if signature_of(said, word).is_some() {
        said.help("no value can be taken within the function `%`", &[word]);
    }
}
