//! A line of the input.
use cf_tree::Bytes;

/// A line without its end.
#[derive(Drop)]
pub enum Line {
    Text(Bytes),
    /// It has more bytes than the limit of a line.
    TooLong,
}
