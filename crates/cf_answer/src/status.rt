//! How a call ends.
ghost use Rattle.std.specs.Prelude.{◌≡◌};
ghost use Rattle.cf_answer.specs.Statuses.{code_of, refusal_status as the_refusal_status};
ghost use Rattle.cf_answer.specs.Statuses.{rule_status as the_rule_status, fault_status as the_fault_status, status_of as the_status_of};

use crate::fault::Fault;
use cf_linear::Refusal;
use cf_program::TypeFault;

/// How a call ends.
#[derive(Clone, Copy, Debug, PartialEq, Eq)]
pub enum Status {
    Done,
    /// The words are no command.
    Usage,
    /// The file was not read.
    File,
    /// The input was not read.
    Input,
    /// A reply was not written.
    Output,
    /// The text spells no program, or no target.
    Text,
    /// A rule on names or types is broken, a target is not well typed, or a language has not the types of a
    /// program.
    Types,
    NotLinear,
    /// A coefficient of a choose passes the limit of numbers.
    Past,
    /// A counted limit is passed.
    Limit,
    /// The input is too long.
    InputLong,
    NoMemory,
    /// The steps of an elimination are not accepted.
    Rejected,
    /// All was written, and some answer of a strict `check` is no.
    AnswersNo,
    /// All was written, no answer of a strict `check` is no, and some is undecided.
    AnswersUndecided,
}

impl Status {
    /// The number that the program ends with.
    pub fn code(&self) -> u8
        ensures { result ≡ code_of self.now }
    {
        match self {
            Status::Done => 0,
            Status::Usage => 2,
            Status::File => 3,
            Status::Input => 4,
            Status::Output => 5,
            Status::Text => 6,
            Status::Types => 7,
            Status::NotLinear => 8,
            Status::Past => 9,
            Status::Limit => 10,
            Status::InputLong => 11,
            Status::NoMemory => 12,
            Status::Rejected => 13,
            Status::AnswersNo => 14,
            Status::AnswersUndecided => 15,
        }
    }
}

fn refusal_status(refusal: &Refusal) -> Status
    ensures { result ≡ the_refusal_status refusal.now }
{
    match refusal {
        Refusal::Past => Status::Past,
        Refusal::Limit { .. } => Status::Limit,
    }
}

fn rule_status(fault: &TypeFault) -> Status
    ensures { result ≡ the_rule_status fault.now }
{
    match fault {
        TypeFault::UnknownName(_) => Status::Types,
        TypeFault::DuplicateName(_) => Status::Types,
        TypeFault::WrongCount(_) => Status::Types,
        TypeFault::Mismatch(_) => Status::Types,
        TypeFault::NotConstant(_) => Status::Types,
        TypeFault::ConstantBelow(_) => Status::Types,
        TypeFault::ConstantPast(_) => Status::Types,
        TypeFault::CallsLater(_) => Status::Types,
        TypeFault::NoMain => Status::Types,
        TypeFault::NotLinear(_) => Status::NotLinear,
        TypeFault::Weight(_) => Status::Limit,
        TypeFault::Depth(_) => Status::Limit,
        TypeFault::NoMemory => Status::NoMemory,
    }
}

fn fault_status(fault: &Fault) -> Status
    ensures { result ≡ the_fault_status fault.now }
{
    match fault {
        Fault::Usage => Status::Usage,
        Fault::File => Status::File,
        Fault::TextTooLong => Status::Text,
        Fault::BadByte(_) => Status::Text,
        Fault::NumberPast(_) => Status::Text,
        Fault::Syntax(_) => Status::Text,
        Fault::Rule(fault) => rule_status(fault),
        Fault::Choose { refusal, .. } => refusal_status(refusal),
        Fault::Weight { .. } => Status::Limit,
        Fault::Depth { .. } => Status::Limit,
        Fault::NoSetsInC => Status::Types,
        Fault::NoSetsInSmt => Status::Types,
        Fault::BadTarget => Status::Types,
        Fault::Steps(_) => Status::Text,
        Fault::Rejected { .. } => Status::Rejected,
        Fault::Input => Status::Input,
        Fault::Output => Status::Output,
        Fault::InputTooLong => Status::InputLong,
        Fault::OutputTooLong => Status::Limit,
        Fault::AnswersNo(_) => Status::AnswersNo,
        Fault::AnswersUndecided(_) => Status::AnswersUndecided,
        Fault::NoMemory => Status::NoMemory,
    }
}

/// The status of an answer.
pub fn status_of(answer: &Result<(), Fault>) -> Status
    ensures { result ≡ the_status_of answer.now }
{
    match answer {
        Ok(()) => Status::Done,
        Err(fault) => fault_status(fault),
    }
}
