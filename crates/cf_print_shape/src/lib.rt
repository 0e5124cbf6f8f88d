//! What a block comes to as its form shows: what it reads and gives, where it is left, and which sets stand in it.
#![tactic(auto)]

mod exit;
mod nones;
mod reads;
mod results;
mod sets;
mod shape;
mod wishes;

pub use crate::exit::Exit;
pub use crate::nones::nones_of;
pub use crate::reads::{block_reads, next_level};
pub use crate::results::{bases_read, names_read, push_name, results_of};
pub use crate::sets::{block_uses_sets, has_set, uses_sets};
pub use crate::shape::{
    can_fall, exit_of, gives, is_if, is_leave, is_none, is_plain, is_straight, leaves_at_ends,
    number_of,
};
pub use crate::wishes::given_at;
