//! Limits of the forms of edition 3.

/// The most alternatives of a comparison, or of another atom, in a relation.
pub const MOST_ALTERNATIVES: u64 = 1024;
