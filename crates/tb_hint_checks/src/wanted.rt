//! The part of a sentence that says what is expected of an expression at its place.

use crate::names::note_declared;
use tb_func::Shape;
use tb_hint_parts::{
    Head, Said, declaration_of, definition_of, head_of, is_result, is_upper, parameter_of,
    signature_of, text_of,
};

/// What is expected of the first argument, by the word of the atom or of the time. A `%` is replaced by this word.
static FIRST: [(&str, &str); 13] = [
    ("printf", "the format of `%` must be a str"),
    ("rec-connect", "`%` gives a tool"),
    ("rec-disconnect", "`%` is about a tool"),
    ("snd-eval", "the first argument of `%` must be a tool"),
    ("snd-do", "the first argument of `%` must be a tool"),
    ("snd-terminate", "the first argument of `%` must be a tool"),
    ("rec-value", "the first argument of `%` must be a tool"),
    ("rec-event", "the first argument of `%` must be a tool"),
    ("snd-ack-event", "the first argument of `%` must be a tool"),
    ("delay", "the time of `%` must be an int"),
    ("timeout", "the time of `%` must be an int"),
    ("abs-delay", "the time of `%` must be an int"),
    ("abs-timeout", "the time of `%` must be an int"),
];

/// What is expected of the second argument, by the word of the atom. The first `%` is replaced by this word, the second one by the first
/// argument.
static SECOND: [(&str, &str); 2] = [
    ("create", "`%` gives the number of a process, an int"),
    ("execute", "`%` gives a tool of the type %"),
];

fn wanted_by(word: &[u8], argument: usize) -> Option<&'static str> {
    match argument {
        0 => text_of(FIRST.as_slice(), word),
        1 => text_of(SECOND.as_slice(), word),
        _ => None,
    }
}

/// Says what is expected of the expression that begins at this token. Returns whether a bool is expected.
pub(crate) fn say_wanted(said: &mut Said, token: usize) -> bool {
    let source = said.source;
    if source.has_before(token, 1, ":=") {
        return say_assigned(said, token.saturating_sub(2));
    }
    if source.has_before(token, 1, "if") {
        said.say("a test must be a bool", &[]);
        return true;
    }
    match head_of(&source, token) {
        None => say_unfit(said),
        Some(head) => say_argument(said, head),
    }
}

fn say_unfit(said: &mut Said) -> bool {
    said.say("this expression doesn't fit", &[]);
    false
}

/// Says which type the variable at this token has. Returns whether the type is bool.
fn say_assigned(said: &mut Said, token: usize) -> bool {
    let source = said.source;
    let name = source.word(token);
    said.say("`%` has the type ", &[name]);
    match declaration_of(&source, token, name) {
        Some(declared) => say_declared(said, declared),
        None => false,
    }
}

/// Says with which type the name at this token is declared, and where. Returns whether the type is bool.
fn say_declared(said: &mut Said, declared: usize) -> bool {
    said.say_type(declared);
    note_declared(said, declared);
    said.source.is(declared.saturating_add(2), "bool")
}

fn say_argument(said: &mut Said, head: Head) -> bool {
    let source = said.source;
    let word = source.word(head.token);
    if is_upper(word) {
        return say_parameter(said, word, head.argument);
    }
    match wanted_by(word, head.argument) {
        Some(sentence) => {
            let first = source.word(head.token.saturating_add(2));
            said.say(sentence, &[word, first]);
            false
        }
        None => say_function_argument(said, word, head.argument),
    }
}

fn say_parameter(said: &mut Said, process: &[u8], number: usize) -> bool {
    let source = said.source;
    let definition = definition_of(&source, "process", process).unwrap_or(0);
    let Some(parameter) = parameter_of(&source, definition, number) else {
        return say_unfit(said);
    };
    let sentence = if is_result(&source, parameter) {
        "the result parameter `%` of `%` needs a variable of just the type "
    } else {
        "the parameter `%` of `%` has the type "
    };
    said.say(sentence, &[source.word(parameter), process]);
    say_declared(said, parameter)
}

fn say_function_argument(said: &mut Said, word: &[u8], argument: usize) -> bool {
    match signature_of(said, word) {
        Some(signature) if argument == 0 => say_argument_type(
            said,
            "first",
            word,
            shape_text(signature.first),
        ),
        Some(signature) => say_argument_type(said, "second", word, shape_text(signature.second)),
        None => say_unfit(said),
    }
}

fn say_argument_type<'w>(said: &mut Said, number: &'w str, word: &'w [u8], text: &'w [u8]) -> bool {
    said.say(
        "the % argument of `%` must be of the type %",
        &[number.as_bytes(), word, text],
    );
    text == b"bool".as_slice()
}

/// Returns the name of a type that a function takes or gives.
pub(crate) fn shape_text(shape: Shape) -> &'static [u8] {
    match shape {
        Shape::Bool => b"bool",
        Shape::Int => b"int",
        Shape::List => b"list",
        Shape::Any => b"term",
    }
}
