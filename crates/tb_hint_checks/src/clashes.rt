//! The sentence about an expression that doesn't fit its place.

use crate::given::{is_no_call, say_given};
use crate::names::ask_function;
use crate::roots::{Argument, argument_at, say_no_value, say_value};
use crate::wanted::say_wanted;
use tb_hint_parts::Said;
use tb_terms::{NoMemory, Term};

/// Says what is expected at this token, and what is there.
pub(crate) fn say_clash(said: &mut Said, token: usize) {
    match argument_at(said, token) {
        Ok(Argument::Absent) => {
            let is_test = say_wanted(said, token);
            said.say(", but ", &[]);
            say_given(said, token);
            say_fitting(said, token, is_test);
        }
        Ok(Argument::Without) => say_no_value(said, token),
        Ok(Argument::With(value)) => say_valued(said, token, &value),
        Err(NoMemory) => said.lack(),
    }
}

fn say_valued(said: &mut Said, token: usize, value: &Term) {
    say_wanted(said, token);
    said.say(", but ", &[]);
    say_value(said, token, value);
}

/// Adds help: a function that may be meant, the forms of a test, or the type of variable that takes each value.
fn say_fitting(said: &mut Said, token: usize, is_test: bool) {
    let source = said.source;
    let is_term = is_no_call(said, token);
    if is_term && ask_function(said, source.word(token)) {
        return;
    }
    if is_test {
        said.help(
            "a test is `true`, `false`, a bool variable, or a call as `equal(x, y)`, `less(x, y)`, `not(x)`",
            &[],
        );
    } else if !is_term && source.has_before(token, 1, ":=") {
        said.help("a variable of the type `term` takes any value", &[]);
    }
}
