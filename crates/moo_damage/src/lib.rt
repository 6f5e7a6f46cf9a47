//! What can be wrong with rows, and that rows with which nothing is wrong show a world.
#![tactic(auto)]

mod checks;
mod damage;
mod differences;
mod first;
mod kind;
mod laws;
mod local;
mod names;
mod plain;
mod trees;

pub use damage::damage_of;
pub use differences::first_difference;
pub use kind::{Key, Kind};
pub use laws::{
    clean_rows_are_good, good_rows_are_clean, good_rows_have_no_damage, held_slots_are_local,
    local_slots_hold,
};
