//! The sentences about names that are defined twice, or not defined.

use tb_hint_parts::{
    Near, Said, declared_in, definition_of, is_lower, say_assigned_operator, say_known, scope_of,
    text_of,
};
use tb_syntax::is_sort_word;

/// The names of the types that aren't tools.
static TYPES: [&str; 5] = ["bool", "int", "str", "list", "term"];

/// The names of all functions.
static FUNCTIONS: [&str; 24] = [
    "equal",
    "not-equal",
    "not",
    "and",
    "or",
    "add",
    "sub",
    "mul",
    "div",
    "mod",
    "less",
    "less-equal",
    "greater",
    "greater-equal",
    "size",
    "first",
    "next",
    "join",
    "member",
    "index",
    "msec",
    "sec",
    "min",
    "hour",
];

/// Names of functions in other languages, each with the function that does the same.
static FOREIGN: [(&str, &str); 24] = [
    ("plus", "add"),
    ("minus", "sub"),
    ("times", "mul"),
    ("eq", "equal"),
    ("equals", "equal"),
    ("ne", "not-equal"),
    ("neq", "not-equal"),
    ("lt", "less"),
    ("le", "less-equal"),
    ("leq", "less-equal"),
    ("gt", "greater"),
    ("ge", "greater-equal"),
    ("geq", "greater-equal"),
    ("rem", "mod"),
    ("length", "size"),
    ("len", "size"),
    ("head", "first"),
    ("tail", "next"),
    ("rest", "next"),
    ("append", "join"),
    ("concat", "join"),
    ("contains", "member"),
    ("elem", "member"),
    ("nth", "index"),
];

/// Says that the name that is defined or declared at this token is already taken.
pub(crate) fn say_twice(said: &mut Said, token: usize) {
    let source = said.source;
    let name = source.word(token.saturating_add(1));
    if source.is(token, "process") {
        say_again(said, "process", name);
        return said.help(
            "to run `%` twice, define it once and name it twice in `toolbus(..)`",
            &[name],
        );
    }
    if !source.is(token, "tool") {
        return say_declared_twice(said, token, source.word(token));
    }
    if is_sort_word(name) {
        return said.say("a tool can't have the name of the type `%`", &[name]);
    }
    say_again(said, "tool", name);
}

fn say_again(said: &mut Said, keyword: &str, name: &[u8]) {
    said.say("the % `%` is defined already", &[keyword.as_bytes(), name]);
    let source = said.source;
    if let Some(definition) = definition_of(&source, keyword, name) {
        let begin = definition.saturating_sub(1);
        said.note(begin, "`%` is defined here", &[name]);
    }
}

/// Adds a note at the definition that has this keyword and this name.
pub(crate) fn say_definition(said: &mut Said, keyword: &str, name: &[u8]) {
    let source = said.source;
    if let Some(definition) = definition_of(&source, keyword, name) {
        said.note(definition, "`%` is defined here", &[name]);
    }
}

fn say_declared_twice(said: &mut Said, token: usize, name: &[u8]) {
    let source = said.source;
    let scope = scope_of(&source, token).unwrap_or(0);
    if source.is(scope, "process") {
        let process = source.word(scope.saturating_add(1));
        said.say(
            "the process `%` has two parameters named `%`",
            &[process, name],
        );
    } else {
        said.say("this `let` declares two variables named `%`", &[name]);
    }
    if let Some(first) = declared_in(&source, scope, name) {
        note_declared(said, first);
    }
}

/// Says that no process has the name at this token.
pub(crate) fn say_no_process(said: &mut Said, token: usize) {
    let source = said.source;
    let name = source.word(token);
    said.say("no process is named `%`", &[name]);
    let mut near = Near::to(said.alloc, name);
    near.offer_definitions(&source, "process");
    near.ask(said);
    say_assigned_operator(said, token);
}

/// Says that the word at this token isn't a type, or isn't a tool that `execute` can start.
pub(crate) fn say_no_tool(said: &mut Said, token: usize) {
    let source = said.source;
    let name = source.word(token);
    if !source.has_before(token, 2, "execute") {
        return say_no_type(said, token);
    }
    if !is_lower(name) || source.is(token.saturating_add(1), "(") {
        return said.say(
            "the first argument of `execute` must be the name of a tool",
            &[],
        );
    }
    if definition_of(&source, "tool", name).is_some() {
        said.say(
            "the tool `%` has no command, so `execute` can't start it",
            &[name],
        );
        return said.help("write `tool % is { command = \"..\" }`", &[name]);
    }
    said.say("no tool is named `%`", &[name]);
    let mut near = Near::to(said.alloc, name);
    near.offer_definitions(&source, "tool");
    near.ask(said);
    if !near.has_found() {
        say_tool(said, name);
    }
}

/// Adds help that shows how to declare the tool of this name.
fn say_tool(said: &mut Said, name: &[u8]) {
    said.help(
        "declare the tool above the process: `tool % is { command = \"..\" }`",
        &[name],
    );
}

fn say_no_type(said: &mut Said, token: usize) {
    let source = said.source;
    let name = source.word(token);
    said.say("`%` is neither a type nor a tool", &[name]);
    let mut near = Near::to(said.alloc, name);
    near.offer_words(TYPES.as_slice());
    near.offer_definitions(&source, "tool");
    near.ask(said);
    said.help(
        "types are `bool`, `int`, `str`, `list`, `term`, and the names of tools",
        &[],
    );
    if !near.has_found() {
        say_tool(said, name);
    }
}

/// Says that no function has the name at this token.
pub(crate) fn say_no_function(said: &mut Said, token: usize) {
    let source = said.source;
    let name = source.word(token);
    said.say("`%` is no function", &[name]);
    if is_sort_word(name) {
        return said.help("`%` is a type", &[name]);
    }
    ask_function(said, name);
    said.help_words("the functions are ", FUNCTIONS.as_slice());
}

/// Adds help that asks whether a certain function was meant by this name, which isn't a function's. Returns whether there is such a
/// function.
pub(crate) fn ask_function(said: &mut Said, name: &[u8]) -> bool {
    if let Some(function) = text_of(FOREIGN.as_slice(), name) {
        said.help("did you mean `%`?", &[function.as_bytes()]);
        return true;
    }
    let mut near = Near::to(said.alloc, name);
    near.offer_words(FUNCTIONS.as_slice());
    near.ask(said);
    near.has_found()
}

/// Says that the variable at this token isn't known there.
pub(crate) fn say_undeclared(said: &mut Said, token: usize) {
    let source = said.source;
    let name = source.word(token);
    said.say(
        "the variable `%` is no parameter here, and no `let` around it declares it",
        &[name],
    );
    let mut near = Near::to(said.alloc, name);
    near.offer_known(&source, token);
    near.ask(said);
    say_known(said, token);
    if !near.has_found() {
        say_declaration(said, token, name);
    }
}

/// Adds help that shows how to declare the variable of this name, so that it is known at this token.
fn say_declaration(said: &mut Said, token: usize, name: &[u8]) {
    if scope_of(&said.source, token).is_none() {
        return said.help("the arguments of `toolbus(..)` have no variables", &[]);
    }
    said.help(
        "declare it, as in `let % : int in .. endlet`, or as a parameter of the process",
        &[name],
    );
}

/// Adds a note at the token that declares a variable.
pub(crate) fn note_declared(said: &mut Said, declared: usize) {
    let name = said.source.word(declared);
    said.note(declared, "`%` is declared here", &[name]);
}
