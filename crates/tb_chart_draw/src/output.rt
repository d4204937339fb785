//! The forms in which a chart is written, and the call that writes one.
use crate::html::{write_data, write_html};
use crate::svg::write_svg;
use crate::text::write_text;
use std::alloc::Global;
use tb_chart::{Cast, Chart};
use tb_terms::NoMemory;

/// The form in which a chart is written.
#[derive(Clone, Copy)]
pub enum Output {
    /// A picture (SVG).
    Svg,
    /// Lines for a terminal.
    Text,
    /// An HTML page that draws the chart beside the source.
    Html,
    /// The data of such a page alone, as JSON.
    Json,
}

/// Appends a chart in this form. `source` must be the script of the cast. Lines for a terminal have no title.
pub fn write_chart(
    alloc: Global,
    output: Output,
    title: &[u8],
    source: &[u8],
    cast: &Cast,
    chart: &Chart,
    into: &mut Vec<u8>,
) -> Result<(), NoMemory> {
    match output {
        Output::Svg => write_svg(alloc, title, cast, chart, into),
        Output::Text => write_text(alloc, cast, chart, into),
        Output::Html => write_html(alloc, title, source, cast, chart, into),
        Output::Json => write_data(alloc, title, source, cast, chart, into),
    }
}
