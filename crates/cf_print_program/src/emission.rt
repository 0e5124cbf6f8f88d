//! What is printed, and in which language.
use cf_print::Language;
use cf_print_block::Outputs;
use cf_stmt::Block;
use cf_tree::{Base, NoMemory, Text};

/// Names of the source, which printed variables take where they are free. Any lists will do: where a name is missing or
/// not free, another one is made.
#[derive(Drop)]
pub struct Hints {
    /// The names of main's parameters, in order.
    pub params: Vec<Text>,
    /// The names of outputs, by the number of their choose.
    pub outputs: Vec<Outputs>,
    /// The names of main's results where its body is one choose, and none elsewhere.
    pub results: Vec<Text>,
}

/// A program to be printed.
#[derive(Clone, Copy)]
pub struct Emission<'a> {
    pub language: Language,
    /// Whether the file is a filter of lines too.
    pub has_main: bool,
    /// The name of the function that is called.
    pub name: &'a [u8],
    /// The bytes of the source, for the comment at the top.
    pub source: &'a [u8],
    pub hints: &'a Hints,
    /// The bases of main's parameters and results.
    pub params: &'a [Base],
    pub results: &'a [Base],
    /// Main's body, over its parameters.
    pub body: &'a Block,
}

/// Why a program is not printed.
#[derive(Clone, Copy, Debug, PartialEq, Eq)]
pub enum EmitFault {
    /// The language has no sets, and the program has one.
    Sets,
    NoMemory,
}

impl From<NoMemory> for EmitFault {
    fn from(_e: NoMemory) -> EmitFault {
        EmitFault::NoMemory
    }
}
