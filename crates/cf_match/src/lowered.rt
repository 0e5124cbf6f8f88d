//! Programs whose matches are taken apart.
#![tactic(auto)]

ghost use Rattle.std.specs.Prelude.{◌≡◌, IfOk, All, map};
ghost use Rattle.std.specs.List.Sorted.{IsPermutation, IsNonDecreasingBy};
ghost use Rattle.cf_tree.specs.DefView.{def_tree};
ghost use Rattle.cf_tree.specs.ExprView.{expr_tree};
ghost use Rattle.cf_program.specs.Lowered.{lowered_def};
ghost use Rattle.cf_program.specs.NoMatch.{HasNoMatch};
ghost use Rattle.cf_match.specs.Kept.{IsLowered};
ghost use Rattle.cf_match.specs.Laws.{AllowTheSame};
ghost use Rattle.cf_match.specs.Matches.{match_tree, all_matches};

use crate::class::Class;
use crate::collect::collect;
use crate::lowering::lower_defs;
use cf_program::{Typed, TypedDefs};
use cf_tree::{Def, NoMemory, without};
use std::alloc::Global;
use std::marker::Model;

/// A match: its number, the numbers of its arms, 0 for an arm without variables, and the classes
/// of its arms.
#[derive(Drop)]
pub struct MatchInfo {
    pub number: u32,
    pub arms: Vec<u32>,
    pub classes: Vec<Class>,
}

/// A program, and the matches of the program that it was made of.
#[derive(Drop)]
pub struct LoweredParts {
    pub typed: Typed,
    pub matches: Vec<MatchInfo>,
}

/// A typed program in which no match stands, and the matches of the program that it was made of,
/// in the order of their numbers. Contracts see the `LoweredParts` that it was made of.
#[derive(Drop)]
pub struct Lowered {
    parts: LoweredParts,
}

impl Model for Lowered {
    ghost use Rattle.cf_match.specs.declared.lowered.LoweredParts.{LoweredParts};

    ghost Value = { LoweredParts };

    ghost use Rattle.cf_tree.specs.contracts.expr.Expr as coded_expr;
    ghost use Rattle.std.specs.Coded.{codes};

    ghost coded = { Prim.hlevel (codes, coded_expr.the_row.coded) };

    ghost use Rattle.cf_match.specs.Kept.{IsLowered};

    ghost view = { λ l. l.parts };

    ghost invariant = { λ l. IsLowered l.parts };
}

impl Lowered {
    fn new(parts: LoweredParts) -> Lowered
        requires { IsLowered parts }
        ensures { result ≡ parts }
    {
        Lowered { parts }
    }

    /// The program with each match as the chooses that it stands for.
    pub fn typed(&self) -> &Typed
        ensures value { result.now ≡ self.now.typed }
        ensures no_match { All (λ d. HasNoMatch (expr_tree d.body)) self.now.typed.defs.items }
    {
        &self.parts.typed
    }

    /// The matches, in the order of their numbers.
    pub fn matches(&self) -> &[MatchInfo]
        ensures value { result.now ≡ self.now.matches.items }
        ensures order { IsNonDecreasingBy (λ m. m.number) self.now.matches.items }
    {
        &self.parts.matches
    }
}

/// The program with each match as the chooses that it stands for, and its matches.
pub fn lower(alloc: Global, typed: &Typed) -> Result<Lowered, NoMemory>
    ensures defs { IfOk result (λ l. map def_tree l.typed.defs.items ≡ map lowered_def (map def_tree typed.now.defs.items)) }
    ensures main { IfOk result (λ l. l.typed.main ≡ typed.now.main) }
    ensures no_match { IfOk result (λ l. All (λ d. HasNoMatch (expr_tree d.body)) l.typed.defs.items) }
    ensures outcomes { IfOk result (λ l. AllowTheSame (map def_tree typed.now.defs.items) (map def_tree l.typed.defs.items)) }
    ensures matches { IfOk result (λ l. IsPermutation (all_matches (map def_tree typed.now.defs.items)) (map match_tree l.matches.items)) }
    ensures order { IfOk result (λ l. IsNonDecreasingBy (λ m. m.number) l.matches.items) }
{
    let matches = numbered(alloc, typed.defs())?;
    match lower_typed(alloc, typed) {
        Ok(typed) => Ok(Lowered::new(LoweredParts { typed, matches })),
        Err(fault) => Err(without(matches, fault)),
    }
}

// The lowered program.
fn lower_typed(alloc: Global, typed: &Typed) -> Result<Typed, NoMemory>
    ensures defs { IfOk result (λ new. map def_tree new.defs.items ≡ map lowered_def (map def_tree typed.now.defs.items)) }
    ensures main { IfOk result (λ new. new.main ≡ typed.now.main) }
    ensures no_match { IfOk result (λ new. All (λ d. HasNoMatch (expr_tree d.body)) new.defs.items) }
    ensures outcomes { IfOk result (λ new. AllowTheSame (map def_tree typed.now.defs.items) (map def_tree new.defs.items)) }
{
    let lowered = lower_defs(alloc, typed.defs())?;
    Ok(Typed::new(TypedDefs {
        defs: lowered,
        main: typed.main(),
    }))
}

// The matches of functions, in the order of their numbers.
fn numbered(alloc: Global, defs: &[Def]) -> Result<Vec<MatchInfo>, NoMemory>
    ensures matches { IfOk result (λ all. IsPermutation (all_matches (map def_tree defs.now)) (map match_tree all.items)) }
    ensures order { IfOk result (λ all. IsNonDecreasingBy (λ m. m.number) all.items) }
{
    let mut all = collect(alloc, defs)?;
    sort(&mut all);
    Ok(all)
}

// Puts matches in the order of their numbers.
fn sort(matches: &mut Vec<MatchInfo>)
    ensures same { IsPermutation matches.old.items matches.new.items }
    ensures order { IsNonDecreasingBy (λ m. m.number) matches.new.items }
{
    matches.sort_unstable_by_key(|info| info.number);
}
