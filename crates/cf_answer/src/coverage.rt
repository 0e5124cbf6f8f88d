//! Whether the arms of a match cover all numbers, by its edition.
ghost use Rattle.std.specs.Prelude.{IfOk};
ghost use Rattle.cf_warn.specs.Classes.{AreClasses};
ghost use Rattle.cf_warn.specs.Covers.{IsCover};
ghost use Rattle.cf_answer.specs.Tells.{TellsClasses, TellsCover};

use cf_covers::{Cover as Residues, covers as covers_by_residues};
use cf_match::Class;
use cf_tree::{Edition, NoMemory};
use cf_warn::{Cover, Doubt, covers};
use std::alloc::Global;

/// Whether every number is in one of the classes: in language 2 the verdict on its question, and in edition 3
/// what residues tell, too, where the question is undecided.
///
/// # Errors
/// `NoMemory` where memory ran out.
pub(crate) fn cover_in(
    alloc: Global,
    edition: Edition,
    classes: &[Class],
) -> Result<Cover, NoMemory>
    requires { AreClasses classes.now }
    ensures { IfOk result (TellsCover edition classes.now) }
{
    let cover = covers(alloc, classes)?;
    match edition {
        Edition::Two => Ok(cover),
        Edition::Three => Ok(by_meaning(classes, cover)),
    }
}

// What the verdict on the question says, and where it is undecided what residues tell.
fn by_meaning(classes: &[Class], cover: Cover) -> Cover
    requires { IsCover classes.now cover }
    ensures { TellsClasses classes.now result }
{
    match cover {
        Cover::All => Cover::All,
        Cover::Misses(number) => Cover::Misses(number),
        Cover::Undecided(doubt) => by_residues(classes, doubt),
    }
}

// What residues tell, and the doubt where they tell nothing.
#[tactic(auto, using(crate::proofs::CoverageLemmas::none_holds))]
fn by_residues(classes: &[Class], doubt: Doubt) -> Cover
    ensures { TellsClasses classes.now result }
{
    match covers_by_residues(classes) {
        Residues::All => Cover::All,
        Residues::Misses(number) => Cover::Misses(number),
        Residues::Undecided => Cover::Undecided(doubt),
    }
}
