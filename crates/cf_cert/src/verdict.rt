//! What a steps file is judged to be.
use cf_linear::Refusal;

/// Why a steps file is rejected.
#[derive(Clone, Copy, Debug, PartialEq, Eq)]
pub enum Why {
    /// A named column is no unknown, or a `mix` names one twice.
    Unknown,
    /// The determinant of a `mix` is neither 1 nor -1.
    Factor,
    /// `last` names no equation, or one without exactly one unknown.
    Single,
    /// `search` or `drop` names an unknown that an equation holds.
    Held,
    /// `drop` meets a lower and an upper bound of which none has the coefficient 1.
    Exact,
    /// An unknown, an equation or an inequality is left at the end of a case.
    Left,
    /// A block's number or its number of cases differs, or a block is missing or too many.
    Blocks,
    /// The block's target is not the one that its steps make.
    Code,
    /// A counted limit, or the limit of numbers, is passed.
    Refused(Refusal),
}

/// What the blocks of a steps file are judged to be. Cases and steps are counted from 1. Step 0 is the
/// first system of a case, one more than the last step is the end of the case, and case 0 with step 0
/// is the choose as a whole.
#[derive(Clone, Copy, Debug, PartialEq, Eq)]
pub enum Verdict {
    /// Each block certifies its choose.
    Yes,
    /// The first fault.
    Rejected {
        number: u32,
        case: u32,
        step: u32,
        why: Why,
    },
}
