//! Statements.
use cf_tree::Code;

/// A block of statements.
#[derive(Drop)]
pub enum Block {
    /// The values of a code.
    Give(Code),
    /// No solution at this number.
    Stop(u32),
    /// The arm is left.
    Leave,
    /// What the first gives is bound behind the variables, for the second.
    Bind(Box<Block>, Box<Block>),
    /// The first value that the first gives is bound before the variables, for the second.
    Part(Box<Block>, Box<Block>),
    /// The values of the first and then those of the second.
    Join(Box<Block>, Box<Block>),
    /// The one or the other.
    Test {
        test: Box<Block>,
        yes: Box<Block>,
        no: Box<Block>,
    },
    /// The body at each tuple below the bounds until it gives; or else what comes later.
    Arm {
        bounds: Vec<u32>,
        body: Box<Block>,
        later: Box<Block>,
    },
}
