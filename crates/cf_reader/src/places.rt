//! Places of faults.
ghost use Rattle.std.specs.Prelude.{◌≡◌};
ghost use Rattle.cf_reader.specs.Faults.{place_with_left};

use cf_lex::TokenList;
use cf_tree::Place;

/// The place where so many tokens are left.
#[tactic(auto, unfolding(crate::specs::Faults::place_with_left))]
pub fn place_at(tokens: &TokenList, left: usize) -> Place
    ensures { result ≡ place_with_left tokens.now.list.items tokens.now.end left }
{
    let from = tokens.list.len().saturating_sub(left);
    match tokens.list[from..].first() {
        Some(t) => t.place,
        None => tokens.end,
    }
}
