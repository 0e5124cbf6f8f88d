//! The cases of a relation, and the first system of each.
#![tactic(auto)]

mod atom;
mod case;
mod counting;
mod first_systems;
pub mod laws;
mod regions;
mod signs;
mod system_builder;

pub use crate::atom::{add_compare, add_constant, add_divides};
pub use crate::counting::{count, order_as, order_ways};
pub use crate::first_systems::{LEVEL_LIMIT, systems};
pub use crate::regions::{Regions, add_apart, add_counts, add_inputs};
pub use crate::signs::abs_count;
pub use crate::system_builder::SystemBuilder;
