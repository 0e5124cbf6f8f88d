//! What the words of the command line ask for.
use cf_print::Language;

/// How a program is written in another language.
#[derive(Clone, Copy, Debug)]
pub struct Emitting<'a> {
    pub language: Language,
    /// Whether the file is a filter of lines too.
    pub has_main: bool,
    /// The name of its function.
    pub name: &'a str,
}

/// What a command does with its file.
#[derive(Clone, Copy, Debug)]
pub enum CommandKind<'a> {
    /// The file holds a source text. The target that it is compiled to is written.
    Compile,
    /// The file holds a source text. The input is answered by the target that it is compiled to.
    Run,
    /// The file holds a source text. The preconditions of its chooses are written.
    Pre,
    /// The file holds a source text. For each of its chooses is written whether outputs always exist,
    /// and whether they are the only ones. The status tells of the answers what is asked of them.
    Check(Strictness),
    /// The file holds a target text. The input is answered by it.
    Exec,
    /// The file holds a source text. The steps of the elimination of each choose, and the choose's own
    /// target, are written.
    Prove,
    /// The file holds a source text. The target that it is compiled to is written as a program of another
    /// language.
    Emit(Emitting<'a>),
    /// The file holds a source text. For each of its chooses, its relation and its arms are written with goals
    /// for solvers.
    Goals,
}

/// What `check` asks of its answers, for its status.
#[derive(Clone, Copy, Debug, PartialEq, Eq)]
pub enum Strictness {
    /// Nothing. It is done when they are written.
    Told,
    /// Outputs always exist, and the arms of each match cover all numbers.
    Existing,
    /// The same, and outputs are the only ones.
    Unique,
}

/// The flags of `check`.
#[derive(Clone, Copy, Debug, PartialEq, Eq)]
pub(crate) struct CheckFlags {
    /// The status tells whether outputs always exist.
    pub(crate) strict: bool,
    /// It tells also whether they are the only ones.
    pub(crate) unique: bool,
}

/// What is asked of the passes.
#[derive(Clone, Copy, Debug, PartialEq, Eq)]
pub struct Flags {
    /// No pass is called.
    pub plain: bool,
    /// The tallies of the passes are written behind all else.
    pub stats: bool,
}

/// How the reply to a line is written.
#[derive(Clone, Copy, Debug, PartialEq, Eq)]
pub struct ReplyForm {
    /// With the key of the line.
    pub key: bool,
    /// As JSON.
    pub jsonl: bool,
}

/// A command on a file: its kind, what is asked of the passes and of the replies, and the name of the
/// file. The name `-` is that of standard input.
#[derive(Clone, Copy, Debug)]
pub struct FileCommand<'a> {
    pub kind: CommandKind<'a>,
    pub flags: Flags,
    pub form: ReplyForm,
    pub file: &'a str,
}

/// What the words ask for.
#[derive(Clone, Copy, Debug)]
pub enum Command<'a> {
    /// Something is done with a file.
    OnFile(FileCommand<'a>),
    /// The steps in the second file are checked against the source text in the first.
    Verify { file: &'a str, steps: &'a str },
    /// The workload of this size, from 1 to 100, is made, compiled and run.
    Gen(u32),
    /// How the program is called is written.
    Help,
    /// The version of the program, and the editions of the language that it takes, are written.
    Version,
}
