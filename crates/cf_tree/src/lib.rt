//! The trees of sources, relations and targets, and the definitions of what they mean.
#![tactic(auto)]

mod base;
mod choose;
mod code;
mod copy;
mod expr;
mod forms;
mod leaves;
mod level;
mod measure;
mod memory;
mod occurs;
mod raw;
mod rel;
mod target;
mod text;

pub use crate::base::{Base, Bytes, Edition, Order, Place, Sense, Text, same_base, same_bases};
pub use crate::choose::{Choose, bases};
pub use crate::code::{Arm, Code, Item};
pub use crate::copy::words::copy_params;
pub use crate::expr::{Aim, Def, Expr, Given, MatchArm};
pub use crate::leaves::Leaves;
pub use crate::level::{add_u32, to_u32};
pub use crate::memory::{NoMemory, without};
pub use crate::occurs::rel_holds;
pub use crate::raw::{
    BinOp, Number, Param, Part, Program, Raw, RawAim, RawArm, RawConst, RawDef, RawGiven, RawItem,
    RawNode,
};
pub use crate::rel::{Rel, SetTerm, Term};
pub use crate::target::{Pre, RawTarget, Target};
pub use crate::text::{put_number, put_truth};
