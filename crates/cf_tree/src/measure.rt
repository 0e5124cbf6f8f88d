//! Sizes and depths of trees.
mod code;
mod expr;
mod raw;
mod rel;
mod whole;
