//! What answers the lines of an input, and in which form.
use cf_program::Late;
use cf_tree::{Target, Text};
use cf_words::ReplyForm;

/// What answers the lines of an input.
#[derive(Drop)]
pub enum Answerer {
    /// A target, which runs on each line.
    Target(Target),
    /// A program whose chooses are eliminated on the numbers of each line.
    Late(Late),
}

/// What answers lines, with the names of its results, as far as these have some.
#[derive(Drop)]
pub struct Runner {
    pub answerer: Answerer,
    pub names: Vec<Text>,
}

/// What answers lines, and the form in which it replies.
#[derive(Drop)]
pub struct Replier {
    pub runner: Runner,
    pub form: ReplyForm,
}
