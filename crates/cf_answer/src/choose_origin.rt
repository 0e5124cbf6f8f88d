//! What the numbers of chooses are of, in a program whose matches are taken apart.
ghost use Rattle.std.specs.Prelude.{◌≡◌, ◌≢◌, ◌<◌, All, IfOk, IfErr, flat_map, get_or, length, map};
ghost use Rattle.std.specs.List.Sorted.{IsNonDecreasingBy, IsPermutation};
ghost use Rattle.cf_match.specs.Matches.{match_tree};
ghost use Rattle.cf_answer.specs.Checking.{AreMatches, IsOrigin};

use crate::fronts::File;
use cf_match::MatchInfo;
use cf_tree::NoMemory;
use std::alloc::Global;

/// What the number of a choose is of.
#[derive(Clone, Copy)]
pub enum Origin<'a> {
    /// A choose of the source.
    Choose,
    /// An arm of a match.
    Arm,
    Match(&'a MatchInfo),
}

/// The source that is checked, its matches in the order of their numbers, and the numbers of all their arms, rising.
#[derive(Clone, Copy)]
pub struct Matches<'a> {
    pub file: File<'a>,
    pub infos: &'a [MatchInfo],
    pub arms: &'a [u32],
}

/// The numbers of the arms of matches, rising.
pub fn arms_of(alloc: Global, infos: &[MatchInfo]) -> Result<Vec<u32>, NoMemory>
    ensures same { IfOk result (λ arms. IsPermutation (flat_map (λ m. m.arms.items) infos.now) arms.items) }
    ensures order { IfOk result (λ arms. IsNonDecreasingBy (λ n. n) arms.items) }
{
    let mut arms = all_arms(alloc, infos)?;
    sort(&mut arms);
    Ok(arms)
}

// The numbers of the arms of matches, match by match.
fn all_arms(alloc: Global, infos: &[MatchInfo]) -> Result<Vec<u32>, NoMemory>
    ensures { IfOk result (λ arms. arms.items ≡ flat_map (λ m. m.arms.items) infos.now) }
{
    let mut arms = Vec::new(alloc);
    for info in infos {
        arms.extend_from_slice(&info.arms)?;
    }
    Ok(arms)
}

fn sort(numbers: &mut Vec<u32>)
    ensures same { IsPermutation numbers.old.items numbers.new.items }
    ensures order { IsNonDecreasingBy (λ n. n) numbers.new.items }
{
    numbers.sort_unstable();
}

// The place of the match with that number.
fn match_place(infos: &[MatchInfo], number: u32) -> Result<usize, usize>
    requires { IsNonDecreasingBy (λ m. m.number) infos.now }
    ensures found { IfOk result (λ i. (i < length infos.now) × ((d : _) → (get_or infos.now i d).number ≡ number)) }
    ensures absent { IfErr result (λ _. All (λ m. m.number ≢ number) infos.now) }
{
    infos.binary_search_by_key(&number, |info| info.number)
}

// The place of that number.
fn arm_place(numbers: &[u32], number: u32) -> Result<usize, usize>
    requires { IsNonDecreasingBy (λ n. n) numbers.now }
    ensures found { IfOk result (λ i. (i < length numbers.now) × ((d : _) → get_or numbers.now i d ≡ number)) }
    ensures absent { IfErr result (λ _. All (λ n. n ≢ number) numbers.now) }
{
    numbers.binary_search(&number)
}

/// What this number is of.
pub fn origin_of<'a>(matches: &Matches<'a>, number: u32) -> Origin<'a>
    requires { AreMatches matches.now.infos.now matches.now.arms.now }
    ensures { IsOrigin (map match_tree matches.now.infos.now) number result }
{
    match match_place(matches.infos, number) {
        Ok(place) => Origin::Match(&matches.infos[place]),
        Err(_) => match arm_place(matches.arms, number) {
            Ok(_) => Origin::Arm,
            Err(_) => Origin::Choose,
        },
    }
}
