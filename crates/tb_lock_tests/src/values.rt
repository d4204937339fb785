//! Tests of calls that neither the program nor a line of the data files of `scenarios` or `calls` makes.

use crate::cores::ui;
use std::test::Fail;
use tb_log::{
    Entry, Input, Out, Reply, ToolLine, is_in_shape, is_out_in_shape, is_tool_line_in_shape,
    show_proper_entry,
};
use tb_notes::Inbox;
use tb_script::{load, write_fault};
use tb_terms::Items;
use tb_tools::Bench;

#[test]
fn a_note_that_is_offered_is_found(rt: HostRuntime) -> Result<(), Fail> {
    let mut inbox = Inbox::new(rt.alloc());
    inbox.offer_note(Items::new(rt.alloc()))?;
    inbox.show_order();
    let found = inbox.find(&Items::new(rt.alloc()))?;
    assert!(rt; found.is_some());
    Ok(())
}

#[test]
fn entries_are_in_shape_or_not(rt: HostRuntime) {
    show_proper_entry(&Entry::Quiet);
    let found = [
        is_tool_line_in_shape(&ToolLine::Bad),
        is_out_in_shape(&Out::End),
        is_in_shape(&Entry::Fed(Input::Gone(17), Reply::Took)),
    ];
    assert_eq!(rt; found, [true, true, false]);
}

/// Takes the first item that is queued on lane 1. Returns whether it is a command.
fn gives_command(bench: &mut Bench) -> bool {
    if bench.next_out(1).is_none() {
        return false;
    }
    matches!(bench.take_out(1), Out::Start(_))
}

#[test]
fn what_is_to_be_handed_out_is_taken(rt: HostRuntime) -> Result<(), Fail> {
    let commands = ui(rt.alloc())?;
    let mut bench = Bench::new(rt.alloc(), &commands)?;
    assert!(rt; gives_command(&mut bench));
    Ok(())
}

#[test]
fn the_words_of_a_fault_are_written_behind_others(rt: HostRuntime) -> Result<(), Fail> {
    let mut into = Vec::from_slice(rt.alloc(), b"toolbus_pair: ")?;
    if let Err(fault) = load(rt.alloc(), b"process P is snd-msg(3.14) toolbus(P)") {
        write_fault(&fault, &mut into)?;
    }
    assert!(rt; into.as_slice() == b"toolbus_pair: script: real 21".as_slice());
    Ok(())
}
