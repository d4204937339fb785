//! The running processes of a bus, over any kind of walkers. These functions start processes, compute their ready actions, and enter
//! their marks in an index. They also give all processes a tick, change inboxes, and exchange items with tools.
#![tactic(auto)]

mod buffers;
mod done;
mod inboxes;
mod indexing;
mod looking;
mod opening;
mod speaking;
mod ticking;

pub use buffers::Buffers;
pub use done::Done;
pub use inboxes::{hand_out, subscribe_at, take_note_at, unsubscribe_at};
pub use indexing::{TOOL_MARK, index_of, no_marks, number_mark, turn, update};
pub use looking::{go_on, look, point_of};
pub use opening::{numbers_of, open_all, open_at, plan_all};
pub use speaking::{is_declared, seen_size, speak};
pub use ticking::tick_all;
