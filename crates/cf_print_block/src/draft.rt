//! What is written so far.
ghost use Rattle.std.specs.Prelude.{◌≡◌, IfOk};
ghost use Rattle.cf_print_line.specs.Layout.{let_lines, read_lines};
ghost use Rattle.cf_print_block.specs.Places.{freed as freed_to, put, taking};

use crate::values::AtHand;
use cf_print::Language;
use cf_print_line::layout;
use cf_tree::{NoMemory, Text};
use std::alloc::Global;
use std::marker::Model;

/// The lines of a function and the names of its pointers, the names that are taken in it, and the functions before it with
/// their numbers.
#[derive(Drop)]
pub struct Draft {
    pub lines: Vec<u8>,
    pub pointers: Vec<Text>,
    pub taken: Vec<Text>,
    pub functions: Vec<u8>,
    pub numbers: Vec<u32>,
}

impl Model for Draft {
    ghost use Rattle.cf_print_block.specs.Places.{Draft as Written};

    ghost Value = { Written };

    ghost view = { λ d. record {
      lines = d.lines.items;
      pointers = d.pointers.items;
      taken = d.taken.items;
      functions = d.functions.items;
      numbers = d.numbers.items;
    } };
}

impl Draft {
    /// The draft with a name taken.
    #[tactic(auto, unfolding(crate::specs::Places::taking))]
    pub(crate) fn taking(self, alloc: Global, name: &Text) -> Result<Draft, NoMemory>
        ensures { IfOk result (λ d. d ≡ taking name.now self) }
    {
        let mut draft = self;
        draft.taken.push(name.try_copy(alloc)?)?;
        Ok(draft)
    }

    /// The draft in which only the first so many names are taken.
    #[tactic(auto, unfolding(crate::specs::Places::freed))]
    pub(crate) fn freed(self, count: usize) -> Draft
        ensures { result ≡ freed_to count self }
    {
        let mut draft = self;
        draft.taken.truncate(count);
        draft
    }
}

/// The draft with a variable and its value.
#[tactic(auto, unfolding(crate::specs::Places::put))]
pub(crate) fn put_let(
    draft: Draft,
    language: Language,
    depth: usize,
    is_read: bool,
    name: &Text,
    value: &AtHand,
) -> Result<Draft, NoMemory>
    ensures { IfOk result (λ d. d ≡ put (let_lines language depth is_read value.now.is_small value.now.base name.now value.now.text) draft) }
{
    let mut draft = draft;
    layout::put_let(
        &mut draft.lines,
        language,
        depth,
        value.is_small,
        value.base,
        &name.bytes,
        &value.text.bytes,
    )?;
    layout::put_read(&mut draft.lines, language, depth, is_read, &name.bytes)?;
    Ok(draft)
}

/// The draft in which a variable is named once more where no statement reads it.
#[tactic(auto, unfolding(crate::specs::Places::put))]
pub(crate) fn put_read(
    draft: Draft,
    language: Language,
    depth: usize,
    is_read: bool,
    name: &Text,
) -> Result<Draft, NoMemory>
    ensures { IfOk result (λ d. d ≡ put (read_lines language depth is_read name.now) draft) }
{
    let mut draft = draft;
    layout::put_read(&mut draft.lines, language, depth, is_read, &name.bytes)?;
    Ok(draft)
}
