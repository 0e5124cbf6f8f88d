//! The statements of a block.
ghost use Rattle.std.specs.Prelude.{◌≡◌, IfOk};
ghost use Rattle.cf_tree.specs.CodeView.{code_tree};
ghost use Rattle.cf_stmt.specs.BlockView.{block_tree};
ghost use Rattle.cf_print_block.specs.Places.{given as values_given, table};
ghost use Rattle.cf_print_block.specs.PrinterView.{setting_in};
ghost use Rattle.cf_print_block.specs.StatementParts.{both_in, branched_in, guarded_in, plain_arm_in, searched_arm_in, second_behind, tested_in};
ghost use Rattle.cf_print_block.specs.Statements.{block as block_draft, called as values_called, exit_lines, first_side as behind_first, held as values_held, in_place as values_in_place, second_side as behind_second};

use crate::draft::Draft;
use crate::function::{Outer, begun, function_of, inside, results_held};
use crate::inner::{bound_ahead, bound_behind};
use crate::lines::{
    close_scope, give_back, open_scope, put_arm, put_else, put_end, put_exit, put_guard, put_if,
    put_last_arm, put_loop_ends,
};
use crate::place::{Place, arm_place, behind_arm, deeper, has_scope, leaving_by};
use crate::printer::{Printer, giving, language_in};
use crate::searches::{Loops, loops_of};
use crate::values::{AtHand, first_of, given};
use crate::variables::{Held, joined, kept, never_read, no_values};
use cf_print_shape::{
    Exit, can_fall, exit_of, gives, is_leave, is_none, is_plain, is_straight, number_of,
};
use cf_print_term::Scope;
use cf_stmt::Block;
use cf_tree::{Code, NoMemory};

// The values of a code, and the draft as it is.
fn held_of(
    printer: &Printer<'_>,
    scope: &Scope,
    code: &Code,
    draft: Draft,
) -> Result<Held, NoMemory>
    ensures { IfOk result (λ h. h ≡ record { values = values_given (table (setting_in printer.now)) scope.now (code_tree code.now); draft = draft }) }
{
    let values = given(printer, scope, code)?;
    Ok(Held { values, draft })
}

/// The draft behind the statements of a block that gives the values of a function.
#[cycle(block)]
pub fn put_block(
    printer: &Printer<'_>,
    scope: Scope,
    block: &Block,
    place: Place,
    draft: Draft,
) -> Result<Draft, NoMemory>
    ensures { IfOk result (λ d. d ≡ block_draft (setting_in printer.now) scope (block_tree block.now) place draft) }
{
    match block {
        Block::Give(code) => {
            let held = held_of(printer, &scope, code, draft)?;
            give_back(printer, place, held)
        }
        Block::Stop(number) => put_exit(printer, place, Exit::Ends(*number), draft),
        Block::Leave => put_exit(printer, place, place.exit, draft),
        Block::Bind(a, b) => {
            if !gives(a) {
                return put_block(printer, scope, a, place, draft);
            }
            let first = in_place(printer, &scope, a, place, draft)?;
            let inner = bound_behind(printer, place, scope, b, first)?;
            put_block(printer, inner.scope, b, place, inner.draft)
        }
        Block::Part(a, b) => {
            if !gives(a) {
                return put_block(printer, scope, a, place, draft);
            }
            let first = in_place(printer, &scope, a, place, draft)?;
            let inner = bound_ahead(printer, place, scope, b, first)?;
            put_block(printer, inner.scope, b, place, inner.draft)
        }
        Block::Join(_, _) => put_joined(printer, scope, block, place, draft),
        Block::Test { test, .. } => {
            if !gives(test) {
                return put_block(printer, scope, test, place, draft);
            }
            let condition = in_place(printer, &scope, test, place, draft)?;
            put_tested(printer, scope, block, place, condition)
        }
        Block::Arm { bounds, later, .. } => {
            let at = giving(printer, number_of(later), place);
            if bounds.len() == 0 {
                plain_arm(printer, scope, block, at, draft)
            } else {
                searched_arm(printer, scope, block, at, draft)
            }
        }
    }
}

// The draft behind values of two blocks.
#[cycle(block)]
fn put_joined(
    printer: &Printer<'_>,
    scope: Scope,
    block: &Block,
    place: Place,
    draft: Draft,
) -> Result<Draft, NoMemory>
    ensures { IfOk result (λ d. d ≡ block_draft (setting_in printer.now) scope (block_tree block.now) place draft) }
{
    match block {
        Block::Join(a, b) => {
            if !gives(a) {
                return put_block(printer, scope, a, place, draft);
            }
            if !gives(b) {
                let first = in_place(printer, &scope, a, place, draft)?;
                let behind = never_read(printer, place.depth, first)?;
                return put_block(printer, scope, b, place, behind);
            }
            let held = both_held(printer, &scope, block, place, draft)?;
            give_back(printer, place, held)
        }
        // for the proof: no other form comes here
        _ => Err(NoMemory),
    }
}

// The values of two blocks that are joined.
#[cycle(block)]
fn both_held(
    printer: &Printer<'_>,
    scope: &Scope,
    block: &Block,
    place: Place,
    draft: Draft,
) -> Result<Held, NoMemory>
    ensures { IfOk result (λ h. h ≡ both_in (setting_in printer.now) scope.now (block_tree block.now) place draft) }
{
    match block {
        Block::Join(a, b) => {
            let first = in_place(printer, scope, a, place, draft)?;
            let before = kept(printer, place.depth, is_plain(b), first)?;
            with_second(printer, scope, b, place, before)
        }
        // for the proof: no other form comes here
        _ => Err(NoMemory),
    }
}

// The values of a block behind others.
#[cycle(block)]
fn with_second(
    printer: &Printer<'_>,
    scope: &Scope,
    block: &Block,
    place: Place,
    before: Held,
) -> Result<Held, NoMemory>
    ensures { IfOk result (λ h. h ≡ second_behind (setting_in printer.now) scope.now (block_tree block.now) place before) }
{
    let Held { values, draft } = before;
    let second = in_place(printer, scope, block, place, draft)?;
    joined(values, second)
}

// A test whose condition is at hand: a side that only leaves is a guard.
#[cycle(block)]
#[tactic(auto, unfolding(crate::specs::Statements::tested))]
fn put_tested(
    printer: &Printer<'_>,
    scope: Scope,
    block: &Block,
    place: Place,
    condition: Held,
) -> Result<Draft, NoMemory>
    ensures { IfOk result (λ d. d ≡ tested_in (setting_in printer.now) scope (block_tree block.now) place condition) }
{
    match block {
        Block::Test { yes, no, .. } => {
            let Held { values, draft } = condition;
            let value = first_of(printer.alloc, &values)?;
            match exit_of(place.exit, no) {
                Some(exit) => {
                    let behind = put_guard(printer, place, &value.denied, exit, draft)?;
                    put_block(printer, scope, yes, place, behind)
                }
                None => match exit_of(place.exit, yes) {
                    Some(exit) => {
                        let behind = put_guard(printer, place, &value.text, exit, draft)?;
                        put_block(printer, scope, no, place, behind)
                    }
                    None => put_branches(printer, scope, block, place, value, draft),
                },
            }
        }
        // for the proof: no other form comes here
        _ => Err(NoMemory),
    }
}

// Both sides of a test.
#[cycle(block)]
#[tactic(auto, unfolding(crate::specs::Statements::branched))]
fn put_branches(
    printer: &Printer<'_>,
    scope: Scope,
    block: &Block,
    place: Place,
    condition: AtHand,
    draft: Draft,
) -> Result<Draft, NoMemory>
    ensures { IfOk result (λ d. d ≡ branched_in (setting_in printer.now) scope (block_tree block.now) place condition draft) }
{
    match block {
        Block::Test { yes, no, .. } => {
            let count = draft.taken.len();
            let behind = first_side(printer, &scope, yes, place, &condition, draft)?;
            if is_leave(no) {
                return put_end(printer, place, behind);
            }
            if !can_fall(yes) {
                let behind = put_end(printer, place, behind)?;
                return put_block(printer, scope, no, place, behind);
            }
            let ended = second_side(printer, scope, no, place, count, behind)?;
            put_end(printer, place, ended)
        }
        // for the proof: no other form comes here
        _ => Err(NoMemory),
    }
}

// The first side of a test, whose names are free again behind it.
#[cycle(block)]
#[tactic(auto, unfolding(crate::specs::Statements::first_side))]
fn first_side(
    printer: &Printer<'_>,
    scope: &Scope,
    block: &Block,
    place: Place,
    condition: &AtHand,
    draft: Draft,
) -> Result<Draft, NoMemory>
    ensures { IfOk result (λ d. d ≡ behind_first (setting_in printer.now) place condition.now
        (block_draft (setting_in printer.now) scope.now (block_tree block.now)) draft) }
{
    let count = draft.taken.len();
    let asked = put_if(printer, place, &condition.text, draft)?;
    let copy = scope.try_copy(printer.alloc)?;
    let ended = put_block(printer, copy, block, deeper(place)?, asked)?;
    Ok(ended.freed(count))
}

// The second side, behind which only so many names are taken.
#[cycle(block)]
#[tactic(auto, unfolding(crate::specs::Statements::second_side))]
fn second_side(
    printer: &Printer<'_>,
    scope: Scope,
    block: &Block,
    place: Place,
    count: usize,
    draft: Draft,
) -> Result<Draft, NoMemory>
    ensures { IfOk result (λ d. d ≡ behind_second (setting_in printer.now) place count
        (block_draft (setting_in printer.now) scope (block_tree block.now)) draft) }
{
    let other = put_else(printer, place, draft)?;
    let ended = put_block(printer, scope, block, deeper(place)?, other)?;
    Ok(ended.freed(count))
}

// An arm without searches: the last one has guards.
#[cycle(block)]
#[tactic(auto, unfolding(crate::specs::Statements::plain_arm))]
fn plain_arm(
    printer: &Printer<'_>,
    scope: Scope,
    block: &Block,
    place: Place,
    draft: Draft,
) -> Result<Draft, NoMemory>
    ensures { IfOk result (λ d. d ≡ plain_arm_in (setting_in printer.now) scope (block_tree block.now) place draft) }
{
    match block {
        Block::Arm { body, later, .. } => match is_none(later) {
            Some(number) => {
                let told = put_arm(printer, place, Some(number), draft)?;
                put_block(
                    printer,
                    scope,
                    body,
                    leaving_by(Exit::Ends(number), place),
                    told,
                )
            }
            None => {
                let count = draft.taken.len();
                let scoped = has_scope(language_in(printer), body);
                let told = put_arm(printer, place, None, draft)?;
                let opened = open_scope(printer, place, scoped, told)?;
                let copy = scope.try_copy(printer.alloc)?;
                let ended = put_block(printer, copy, body, arm_place(scoped, place)?, opened)?;
                let behind = close_scope(printer, place, scoped, ended.freed(count))?;
                let at = behind_arm(place)?;
                let told = put_last_arm(printer, at, later, behind)?;
                put_block(printer, scope, later, at, told)
            }
        },
        // for the proof: no other form comes here
        _ => Err(NoMemory),
    }
}

// An arm with searches.
#[cycle(block)]
#[tactic(auto, unfolding(crate::specs::Statements::searched_arm))]
fn searched_arm(
    printer: &Printer<'_>,
    scope: Scope,
    block: &Block,
    place: Place,
    draft: Draft,
) -> Result<Draft, NoMemory>
    ensures { IfOk result (λ d. d ≡ searched_arm_in (setting_in printer.now) scope (block_tree block.now) place draft) }
{
    match block {
        Block::Arm {
            bounds,
            body,
            later,
        } => {
            let count = draft.taken.len();
            let told = put_arm(printer, place, is_none(later), draft)?;
            let outside = Loops {
                draft: told,
                scope: scope.try_copy(printer.alloc)?,
                depth: place.depth,
            };
            let inside = loops_of(printer, bounds, outside)?;
            let at = Place {
                depth: inside.depth,
                exit: Exit::GoesOn,
                arms: 0,
                giving: place.giving,
            };
            let ended = put_block(printer, inside.scope, body, at, inside.draft)?;
            let behind = put_loop_ends(printer, place, bounds.len(), ended.freed(count))?;
            let at = behind_arm(place)?;
            let told = put_last_arm(printer, at, later, behind)?;
            put_block(printer, scope, later, at, told)
        }
        // for the proof: no other form comes here
        _ => Err(NoMemory),
    }
}

// The values of a block: in its place where it is straight.
#[cycle(block)]
#[tactic(auto, unfolding(crate::specs::Statements::in_place))]
fn in_place(
    printer: &Printer<'_>,
    scope: &Scope,
    block: &Block,
    place: Place,
    draft: Draft,
) -> Result<Held, NoMemory>
    ensures { IfOk result (λ h. h ≡ values_in_place (setting_in printer.now) place scope.now (block_tree block.now)
        (values_held (setting_in printer.now) scope.now (block_tree block.now)) (block_draft (setting_in printer.now) scope.now (block_tree block.now)) draft) }
{
    if is_straight(place.exit, block) {
        held(printer, scope, block, place, draft)
    } else {
        called(printer, scope, block, place, draft)
    }
}

// The values of a block by a function before this one.
#[cycle(block)]
#[tactic(auto, unfolding(crate::specs::Statements::called))]
fn called(
    printer: &Printer<'_>,
    scope: &Scope,
    block: &Block,
    place: Place,
    draft: Draft,
) -> Result<Held, NoMemory>
    ensures { IfOk result (λ h. h ≡ values_called (setting_in printer.now) place scope.now (block_tree block.now)
        (block_draft (setting_in printer.now) scope.now (block_tree block.now)) draft) }
{
    let function = function_of(printer, scope, block, &draft.numbers)?;
    let Draft {
        lines,
        pointers,
        taken,
        functions,
        numbers,
    } = draft;
    let outer = Outer {
        lines,
        pointers,
        taken,
    };
    let first = begun(printer, &function, functions, numbers)?;
    let copy = scope.try_copy(printer.alloc)?;
    let done = put_block(printer, copy, block, inside(&function), first)?;
    results_held(printer, place.depth, &function, outer, done)
}

// The values of a straight block, behind its statements.
#[cycle(block)]
fn held(
    printer: &Printer<'_>,
    scope: &Scope,
    block: &Block,
    place: Place,
    draft: Draft,
) -> Result<Held, NoMemory>
    ensures { IfOk result (λ h. h ≡ values_held (setting_in printer.now) scope.now (block_tree block.now) place draft) }
{
    match block {
        Block::Give(code) => held_of(printer, scope, code, draft),
        _ => held_inside(printer, scope.try_copy(printer.alloc)?, block, place, draft),
    }
}

#[cycle(block)]
fn held_inside(
    printer: &Printer<'_>,
    scope: Scope,
    block: &Block,
    place: Place,
    draft: Draft,
) -> Result<Held, NoMemory>
    ensures { IfOk result (λ h. h ≡ values_held (setting_in printer.now) scope (block_tree block.now) place draft) }
{
    match block {
        Block::Give(code) => held_of(printer, &scope, code, draft),
        Block::Stop(_) | Block::Leave => Ok(no_values(printer.alloc, draft)),
        Block::Bind(a, b) => {
            let first = in_place(printer, &scope, a, place, draft)?;
            let inner = bound_behind(printer, place, scope, b, first)?;
            held_inside(printer, inner.scope, b, place, inner.draft)
        }
        Block::Part(a, b) => {
            let first = in_place(printer, &scope, a, place, draft)?;
            let inner = bound_ahead(printer, place, scope, b, first)?;
            held_inside(printer, inner.scope, b, place, inner.draft)
        }
        Block::Join(_, _) => both_held(printer, &scope, block, place, draft),
        Block::Test { test, .. } => {
            let condition = in_place(printer, &scope, test, place, draft)?;
            guarded(printer, scope, block, place, condition)
        }
        Block::Arm { body, later, .. } => {
            let number = number_of(later);
            let at = leaving_by(Exit::Ends(number), giving(printer, number, place));
            held_inside(printer, scope, body, at, draft)
        }
    }
}

// The values behind a guard whose condition is at hand.
#[cycle(block)]
#[tactic(auto, unfolding(crate::specs::Statements::guarded))]
fn guarded(
    printer: &Printer<'_>,
    scope: Scope,
    block: &Block,
    place: Place,
    condition: Held,
) -> Result<Held, NoMemory>
    ensures { IfOk result (λ h. h ≡ guarded_in (setting_in printer.now) scope (block_tree block.now) place condition) }
{
    match block {
        Block::Test { yes, no, .. } => {
            let Held { values, draft } = condition;
            let value = first_of(printer.alloc, &values)?;
            match exit_of(place.exit, no) {
                Some(exit) => {
                    let behind = put_guard(printer, place, &value.denied, exit, draft)?;
                    held_inside(printer, scope, yes, place, behind)
                }
                None => match exit_of(place.exit, yes) {
                    Some(exit) => {
                        let behind = put_guard(printer, place, &value.text, exit, draft)?;
                        held_inside(printer, scope, no, place, behind)
                    }
                    None => Ok(no_values(printer.alloc, draft)),
                },
            }
        }
        // for the proof: no other form comes here
        _ => Err(NoMemory),
    }
}
