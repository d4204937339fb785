//! The arguments after `chart`, and the request that they make.

use crate::chart::ChartRequest;
use clap::{Arg, ArgAction, ArgMatches, Command, value_parser};
use std::alloc::{AllocError, Global};
use tb_chart::Span;
use tb_chart_draw::Output;

/// Returns the command `chart`, as `clap` reads it.
pub(crate) fn chart_command<'a>(alloc: Global) -> Result<Command<'a>, AllocError> {
    let html = form_flag(
        alloc,
        "html",
        "Writes a page with the chart beside the script",
    );
    Command::new(alloc, "chart")
        .about(
            "Draws a log as a message sequence chart: a picture (SVG), if no option asks for another form",
        )
        .arg(file_arg(alloc, "SCRIPT", "The file of a script"))?
        .arg(file_arg(alloc, "LOG", "The file of a log of the script"))?
        .arg(form_flag(alloc, "text", "Writes lines for a terminal"))?
        .arg(html.conflicts_with("text")?)?
        .arg(entry_option(alloc, "from", "The first entry that is shown"))?
        .arg(entry_option(alloc, "to", "The last entry that is shown"))?
        .arg(connect_option(alloc))
}

pub(crate) fn file_arg<'a>(alloc: Global, name: &'static str, help: &'static str) -> Arg<'a> {
    Arg::new(alloc, name).required(true).help(help)
}

fn form_flag<'a>(alloc: Global, name: &'static str, help: &'static str) -> Arg<'a> {
    Arg::new(alloc, name)
        .long(name)
        .action(ArgAction::SetTrue)
        .help(help)
}

fn entry_option<'a>(alloc: Global, name: &'static str, help: &'static str) -> Arg<'a> {
    Arg::new(alloc, name)
        .long(name)
        .value_name("NUMBER")
        .value_parser(value_parser!(u64))
        .help(help)
}

pub(crate) fn connect_option<'a>(alloc: Global) -> Arg<'a> {
    Arg::new(alloc, "connect")
        .long("connect")
        .value_name("COMMAND")
        .action(ArgAction::Append)
        .help("A command with which the bus began, as given to toolbus. The option can be repeated")
}

/// Returns the request that the arguments of `chart` make.
pub(crate) fn chart_request<'a>(asked: &ArgMatches<'a>) -> ChartRequest<'a> {
    let from = asked.get_one::<u64>("from");
    let to = asked.get_one::<u64>("to");
    ChartRequest {
        script: asked.get_str("SCRIPT").unwrap_or(""),
        log: asked.get_str("LOG").unwrap_or(""),
        output: output_of(asked),
        span: Span {
            from: from.unwrap_or(1),
            to: to.unwrap_or(u64::MAX),
            all: from.is_none() && to.is_none(),
        },
        commands: asked.get_strs("connect").unwrap_or(&[]).len(),
    }
}

fn output_of(asked: &ArgMatches) -> Output {
    if asked.get_flag("text") {
        Output::Text
    } else if asked.get_flag("html") {
        Output::Html
    } else {
        Output::Svg
    }
}
