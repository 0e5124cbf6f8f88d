//! Why a call did not do what its words ask.
use cf_build::BuildFault;
use cf_cert::Why;
use cf_form::FormFault;
use cf_linear::{LimitKind, Refusal};
use cf_program::TypeFault;
use cf_tree::{NoMemory, Place};

/// Why the text of a steps file is refused.
#[derive(Clone, Copy, Debug)]
pub enum StepsFault {
    TooLong,
    BadByte(Place),
    NumberPast(Place),
    Syntax(Place),
}

/// Why a call did not do what its words ask.
#[derive(Clone, Copy, Debug)]
pub enum Fault {
    /// The words are no command.
    Usage,
    /// The file was not read.
    File,
    TextTooLong,
    BadByte(Place),
    NumberPast(Place),
    Syntax(Place),
    /// The first rule that the program breaks.
    Rule(TypeFault),
    /// The first choose that is refused.
    Choose {
        number: u32,
        refusal: Refusal,
    },
    /// The weight of a function of edition 3, whose forms are those of language 2, passes the limit.
    Weight {
        function: u32,
        weight: u64,
    },
    /// The same of its depth.
    Depth {
        function: u32,
        depth: u64,
    },
    /// A set stands in the program, and it is to be written in C.
    NoSetsInC,
    /// A set stands in a choose or in its arms, and these are to be written for solvers.
    NoSetsInSmt,
    /// The target that the file spells is not well typed.
    BadTarget,
    /// The text of the steps file is refused.
    Steps(StepsFault),
    /// The first fault of the steps: its choose, its case and its step, and why.
    Rejected {
        number: u32,
        case: u32,
        step: u32,
        why: Why,
    },
    /// The input was not read.
    Input,
    /// A reply was not written.
    Output,
    InputTooLong,
    /// What was to be written is longer than its readers take.
    OutputTooLong,
    /// All was written, and so many answers of a strict `check` are no.
    AnswersNo(u32),
    /// All was written, no answer of a strict `check` is no, and so many are undecided.
    AnswersUndecided(u32),
    NoMemory,
}

impl From<NoMemory> for Fault {
    ghost use Rattle.std.specs.Prelude.{◌≡◌};
    ghost use Rattle.cf_answer.specs.declared.fault.Fault.TheVariants as variants;

    ghost from_gives = { λ _ e. e ≡ variants.NoMemory };

    fn from(_e: NoMemory) -> Fault {
        Fault::NoMemory
    }
}

impl From<BuildFault> for Fault {
    ghost use Rattle.std.specs.Prelude.{◌≡◌};
    ghost use Rattle.cf_answer.specs.Refusals.{fault_of};

    ghost from_gives = { λ fault e. e ≡ fault_of fault };

    fn from(fault: BuildFault) -> Fault {
        match fault {
            BuildFault::Choose { number, refusal } => Fault::Choose { number, refusal },
            BuildFault::NoMemory => Fault::NoMemory,
        }
    }
}

impl From<FormFault> for Fault {
    ghost use Rattle.std.specs.Prelude.{◌≡◌};
    ghost use Rattle.cf_answer.specs.Refusals.{form_fault};

    ghost from_gives = { λ fault e. e ≡ form_fault fault };

    fn from(fault: FormFault) -> Fault {
        match fault {
            FormFault::Cases { number, count } => Fault::Choose {
                number,
                refusal: Refusal::Limit {
                    kind: LimitKind::Cases,
                    number: count,
                },
            },
            FormFault::Weight { function, weight } => Fault::Weight { function, weight },
            FormFault::Depth { function, depth } => Fault::Depth { function, depth },
            FormFault::NoMemory => Fault::NoMemory,
        }
    }
}
