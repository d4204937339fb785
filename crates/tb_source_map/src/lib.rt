//! The places of a script: the line and the column of each byte, and the place of each atom of a process in the script.
#![tactic(auto)]

mod laws;
mod mark;
mod places;
mod sites;
mod spot;

pub use laws::{
    atoms_come_from_their_places, columns_count_from_the_line, sites_are_atoms_of_the_script,
};
pub use mark::{Mark, mark_at};
pub use places::{Places, ProcessPlace, all_places};
pub use spot::{Spot, spot_at};
