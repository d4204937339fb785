//! Terms with their parts, types, and text, and the expressions and patterns of scripts.
#![tactic(auto)]

mod expr;
mod ident;
mod laws;
mod measure;
mod memory;
mod name;
mod pattern;
mod proper;
mod sort;
mod term;
mod text;
mod well_sorted;
mod write;

pub use expr::{Expr, Exprs, Func, copy_exprs};
pub use ident::{Ident, is_ident_bytes};
pub use laws::texts_are_short;
pub use measure::{
    MOST_TERM_LEVELS, MOST_TERM_SIZE, are_within_limits, depth, is_within_limits, size, total_size,
};
pub use memory::NoMemory;
pub use name::{Name, Names, is_name_bytes};
pub use pattern::{Pattern, Patterns, copy_patterns, same_pattern_lists};
pub use proper::show_proper;
pub use sort::{Sort, Sorts};
pub use sqlite_items::{Boxed, Items};
pub use term::{Term, Terms, copy_terms, same, same_all, same_terms};
pub use text::{Text, Texts};
pub use well_sorted::{has_sort, initial};
pub use write::{push_quoted, write_term, write_terms};
