//! The sentence about a failed check of a script.

use crate::arguments::{say_count, say_misplaced, say_not_result};
use crate::clashes::say_clash;
use crate::names::{say_no_function, say_no_process, say_no_tool, say_twice, say_undeclared};
use tb_hint_parts::Said;
use tb_types::CheckFault;

/// Says which check of the script fails, and why.
pub fn say_check(said: &mut Said, fault: CheckFault) {
    match fault {
        CheckFault::Twice(token) => say_twice(said, token),
        CheckFault::NoProcess(token) => say_no_process(said, token),
        CheckFault::NoTool(token) => say_no_tool(said, token),
        CheckFault::NoFunction(token) => say_no_function(said, token),
        CheckFault::Arity(token) => say_count(said, token),
        CheckFault::Undeclared(token) => say_undeclared(said, token),
        CheckFault::ResultInSend(token) => say_misplaced(said, token),
        CheckFault::NotResult(token) => say_not_result(said, token),
        CheckFault::TypeClash(token) => say_clash(said, token),
        CheckFault::NoMemory => {}
    }
}
