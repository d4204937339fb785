//! The atoms of the language: the form of each, and its arguments.

use crate::said::Said;
use crate::source::text_of;

/// The word of each atom, with its form and a description of its arguments.
pub(crate) static ATOMS: [(&str, &str); 21] = [
    ("delta", "`delta`: it never happens"),
    ("tau", "`tau`: it only makes a step"),
    (
        "printf",
        "`printf(S, e, ..)`: S is a string, with a `%d`, `%s` or `%t` for each value e",
    ),
    ("snd-msg", "`snd-msg(e, ..)`: each e is a value"),
    (
        "rec-msg",
        "`rec-msg(p, ..)`: each p is a term, in which `V?` takes a value and `<int>` matches each number",
    ),
    ("snd-note", "`snd-note(e, ..)`: each e is a value"),
    (
        "rec-note",
        "`rec-note(p, ..)`: each p is a term, in which `V?` takes a value and `<int>` matches each number",
    ),
    (
        "no-note",
        "`no-note(p, ..)`: each p is a term, in which `<int>` matches each number",
    ),
    (
        "subscribe",
        "`subscribe(p, ..)`: each p is a term, in which `<int>` matches each number",
    ),
    (
        "unsubscribe",
        "`unsubscribe(p, ..)`: each p is as in an earlier `subscribe`",
    ),
    (
        "execute",
        "`execute(n, V?)`: n is the name of a tool with a command, and V takes the tool",
    ),
    (
        "rec-connect",
        "`rec-connect(V?)`: V takes a tool, and its type is the name of the tool",
    ),
    (
        "rec-disconnect",
        "`rec-disconnect(T)`: T is a tool, or `V?`, which takes one",
    ),
    (
        "snd-eval",
        "`snd-eval(T, e)`: T is a tool, and e is the term that it evaluates",
    ),
    (
        "rec-value",
        "`rec-value(T, p)`: T is a tool, and p is its answer, in which `V?` takes a value",
    ),
    (
        "snd-do",
        "`snd-do(T, e)`: T is a tool, and e is the term that it receives",
    ),
    (
        "rec-event",
        "`rec-event(T, p, ..)`: T is a tool, and each p is a term of its event, in which `V?` takes a value",
    ),
    (
        "snd-ack-event",
        "`snd-ack-event(T, e, ..)`: T is a tool, and each e is a term of its event",
    ),
    (
        "snd-terminate",
        "`snd-terminate(T, e)`: T is a tool, and e is a term that it receives, such as `done`",
    ),
    (
        "shutdown",
        "`shutdown(e)`: e is a term that the tools receive, such as `done`",
    ),
    (
        "create",
        "`create(N(e, ..), V?)`: N is a process with the arguments e, and V takes its number",
    ),
];

/// Adds help that shows the form of the atom with this word. If the word isn't an atom's, adds nothing.
pub fn say_form(said: &mut Said, word: &[u8]) {
    if let Some(form) = text_of(ATOMS.as_slice(), word) {
        said.help("write %", &[form.as_bytes()]);
    }
}
