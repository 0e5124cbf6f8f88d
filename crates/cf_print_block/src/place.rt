//! Where statements stand.
ghost use Rattle.std.specs.Prelude.{◌≡◌, IfOk};
ghost use Rattle.cf_stmt.specs.BlockView.{block_tree};
ghost use Rattle.cf_print_block.specs.Places.{behind_arm as behind_the_arm, deeper as one_deeper, giving_of as giving_at, leaving_by as leaving};
ghost use Rattle.cf_print_block.specs.Statements.{arm_place as place_of_arm, has_scope as has_a_scope};

use cf_print::{Language, next};
use cf_print_shape::{Exit, is_if};
use cf_stmt::Block;
use cf_tree::NoMemory;

/// Whose outputs a block gives.
#[derive(Clone, Copy, Debug, PartialEq, Eq)]
pub enum Giving {
    /// Those of main.
    Results,
    /// Those of the choose of this number.
    Choose(u32),
    /// Those of a part of main, which have no names.
    Part,
}

/// How deep statements stand, what leaving the arm comes to, how many arms stand before, and what is given.
#[derive(Clone, Copy)]
pub struct Place {
    pub depth: usize,
    pub exit: Exit,
    pub arms: usize,
    pub giving: Giving,
}

/// A place one step deeper.
#[tactic(auto, unfolding(crate::specs::Places::deeper))]
pub(crate) fn deeper(place: Place) -> Result<Place, NoMemory>
    ensures { IfOk result (λ p. p ≡ one_deeper place) }
{
    Ok(Place {
        depth: next(place.depth)?,
        exit: place.exit,
        arms: 0,
        giving: place.giving,
    })
}

/// A place of which leaving comes to this.
#[tactic(auto, unfolding(crate::specs::Places::leaving_by))]
pub(crate) fn leaving_by(exit: Exit, place: Place) -> Place
    ensures { result ≡ leaving exit place }
{
    Place {
        depth: place.depth,
        exit,
        arms: 0,
        giving: place.giving,
    }
}

/// The place behind an arm.
#[tactic(auto, unfolding(crate::specs::Places::behind_arm))]
pub(crate) fn behind_arm(place: Place) -> Result<Place, NoMemory>
    ensures { IfOk result (λ p. p ≡ behind_the_arm place) }
{
    Ok(Place {
        depth: place.depth,
        exit: place.exit,
        arms: next(place.arms)?,
        giving: place.giving,
    })
}

/// Whether an arm has a scope for its variables.
pub(crate) fn has_scope(language: Language, body: &Block) -> bool
    ensures { result ≡ has_a_scope language (block_tree body.now) }
{
    match language {
        Language::Python => false,
        Language::C | Language::JavaScript | Language::Rust => !is_if(body),
    }
}

/// The place of an arm without searches, which has others behind it, in a scope or not.
pub(crate) fn arm_place(scoped: bool, place: Place) -> Result<Place, NoMemory>
    ensures { IfOk result (λ p. p ≡ place_of_arm scoped place) }
{
    if scoped {
        return deeper(leaving_by(Exit::Falls, place));
    }
    Ok(leaving_by(Exit::Falls, place))
}

/// What a function gives that is made for a choose, or for a part of main where the number is 0.
pub(crate) fn giving_of(number: u32) -> Giving
    ensures { result ≡ giving_at number }
{
    if number == 0 {
        Giving::Part
    } else {
        Giving::Choose(number)
    }
}
