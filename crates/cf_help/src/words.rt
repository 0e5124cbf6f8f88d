//! Words about a fault.
use cf_tree::Text;

/// What is told of a fault behind its place, and a help where there is one.
#[derive(Drop)]
pub struct FaultWords {
    pub what: Text,
    pub help: Option<Text>,
}
