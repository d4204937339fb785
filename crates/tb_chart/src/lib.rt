//! Message sequence charts: the processes and the tools of a log as lifelines, and its entries as rows.
#![tactic(auto)]

mod cast;
mod chart;
mod drawn;
mod fault;
mod figure;
mod lane;
mod lines;
mod named;
mod row;
mod scene;

pub use cast::{Cast, Role, Site};
pub use chart::{Chart, Span, chart_of};
pub use drawn::{Drawn, drawn_rows};
pub use fault::ChartFault;
pub use figure::{ArrowKind, End, Figure, ends_of, figure_of};
pub use lines::{Lines, ProcessLine, Spot};
pub use row::{Row, Seat, Who};
