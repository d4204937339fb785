//! The program `toolbus_lens` as one call, from its arguments on. Each command has a module.
#![tactic(auto)]

mod at;
mod chart;
mod chart_words;
mod feed;
mod loading;
mod naming;
mod plain;
mod program;
mod put;
mod source;
mod status;
mod why;

pub use at::tell_at;
pub use chart::{ChartRequest, tell_chart};
pub use feed::tell_feed;
pub use plain::tell_plain;
pub use program::lens;
pub use source::{Reading, Source};
pub use status::{Status, Trouble};
pub use why::{WhyRequest, tell_why};
