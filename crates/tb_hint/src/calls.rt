//! The sentences about recursive calls, and about scripts that are too large.

use sqlite_items::at;
use tb_expand::ExpandFault;
use tb_fault_place::first_call;
use tb_hint_parts::{Said, count_parameters, definition_of, joint};
use tb_lex::Tokens;
use tb_parse::parse;
use tb_syntax::Script;
use tb_terms::Ident;

/// Says why the calls of a script can't be replaced by the bodies of the called processes.
pub(crate) fn say_expand(said: &mut Said, tokens: &Tokens, fault: &ExpandFault) {
    match fault {
        ExpandFault::Recursion(names) => say_recursion(said, tokens, names.as_slice()),
        ExpandFault::TooLarge(name) => say_large(said, name.as_bytes()),
        ExpandFault::NoMemory => {}
    }
}

fn say_recursion(said: &mut Said, tokens: &Tokens, names: &[Ident]) {
    say_cycle(said, names);
    match parse(said.alloc, tokens) {
        Ok(script) => say_calls(said, &script, names),
        Err(_) => said.lack(),
    }
    let first = first_name(names);
    said.help(
        "to repeat, write `( .. ) * delta` in the body of `%`",
        &[first],
    );
    say_start(said, name_behind(names, 0));
    if let [_, second] = names {
        said.help(
            "to run both side by side, write `toolbus(%, %)`",
            &[first, second.as_bytes()],
        );
    }
}

/// Says which process of a cycle calls which.
fn say_cycle(said: &mut Said, names: &[Ident]) {
    let first = first_name(names);
    if names.len() < 2 {
        return said.say("`%` calls itself: a process can't contain itself", &[first]);
    }
    said.say("`%`", &[first]);
    for position in 0..names.len() {
        said.say(joint(position, 2, ", which"), &[]);
        said.say(" calls `%`", &[name_behind(names, position)]);
    }
    said.say(" again: a process can't contain itself", &[]);
}

/// Adds help that shows how to repeat a process, and how to repeat it forever.
pub(crate) fn say_repetition(said: &mut Said) {
    say_repeat(said);
    said.help("to repeat for ever, write `x * delta`", &[]);
}

/// Adds help that shows how to repeat a process.
fn say_repeat(said: &mut Said) {
    said.help(
        "to repeat, write `x * y`: x any number of times, and then y",
        &[],
    );
}

/// Adds help that shows how to start the process of this name.
fn say_start(said: &mut Said, name: &[u8]) {
    let source = said.source;
    let definition = definition_of(&source, "process", name).unwrap_or(0);
    let arguments: &[u8] = if count_parameters(&source, definition) > 0 {
        b"(..)"
    } else {
        b""
    };
    said.help(
        "to start another process, write `let N : int in create(%%, N?) endlet`",
        &[name, arguments],
    );
}

/// Adds a note at each call of a cycle.
fn say_calls(said: &mut Said, script: &Script, names: &[Ident]) {
    for (position, name) in names.iter().enumerate() {
        let called = name_behind(names, position);
        if let Some(token) = first_call(script, name.as_bytes(), called) {
            said.note(token, "`%` calls `%` here", &[name.as_bytes(), called]);
        }
    }
}

/// Returns the name after the name at this position, or the first name after the last.
fn name_behind(names: &[Ident], position: usize) -> &[u8] {
    match at(names, position.saturating_add(1)) {
        Some(next) => next.as_bytes(),
        None => first_name(names),
    }
}

fn first_name(names: &[Ident]) -> &[u8] {
    match at(names, 0) {
        Some(first) => first.as_bytes(),
        None => b"",
    }
}

fn say_large(said: &mut Said, name: &[u8]) {
    said.say(
        "with each call replaced by the body of its process, `%` has more than 20,000 atoms or 1,000 levels",
        &[name],
    );
    say_repeat(said);
    said.help(
        "or start a process in place of a call: `let N : int in create(P, N?) endlet`",
        &[],
    );
}

/// Says that a script starts too many processes.
pub(crate) fn say_roots(said: &mut Said, count: usize) {
    said.say("`toolbus(..)` starts ", &[]);
    said.say_grouped(count);
    said.say(" processes, and 10,000 are the most", &[]);
    said.help(
        "start the others in a process: `let N : int in create(P, N?) endlet`",
        &[],
    );
}

/// Says that a file has too many bytes.
pub(crate) fn say_long(said: &mut Said, count: usize) {
    said.say("the file has ", &[]);
    said.say_grouped(count);
    said.say(" bytes, and 1,048,576 are the most", &[]);
    said.help("comments and whitespace count too", &[]);
}
