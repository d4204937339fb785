//! The forms in which a chart is written: a picture (SVG), lines for a terminal, and a page.
#![tactic(auto)]

mod html;
mod label;
mod output;
mod page;
mod push;
mod svg;
mod text;

pub use output::{Output, write_chart};
