//! Programs of edition 3 with the forms of language 2.
#![tactic(auto)]

ghost use Rattle.std.specs.Prelude.{◌≡◌};
ghost use Rattle.cf_program.specs.Typed.{typed_tree};
ghost use Rattle.cf_program.specs.declared.linearity.Linearity.TheVariants.{Plain};
ghost use Rattle.cf_form.specs.FormAnswers.{FormAnswer};

use crate::fault::FormFault;
use crate::made::make;
use crate::told::ChooseInfo;
use cf_program::{Source, Typed, TypedDefs};
use std::alloc::Global;
use std::marker::Model;

/// A program, and what is told of the chooses of the program that it was made of.
#[derive(Drop)]
pub struct FormedParts {
    pub typed: Typed,
    pub chooses: Vec<ChooseInfo>,
}

/// A typed program with the forms of language 2 alone, and what is told of the chooses of the
/// source that it was made of, in the order of the text. Contracts see the `FormedParts` that it was
/// made of.
#[derive(Drop)]
pub struct Formed {
    parts: FormedParts,
}

impl Model for Formed {
    ghost use Rattle.cf_form.specs.declared.formed.FormedParts.{FormedParts};

    ghost Value = { FormedParts };

    ghost use Rattle.cf_tree.specs.contracts.expr.Expr as coded_expr;
    ghost use Rattle.cf_tree.specs.contracts.rel.Rel as coded_rel;
    ghost use Rattle.std.specs.Coded.{codes};

    ghost coded = { Prim.hlevel (codes, coded_expr.the_row.coded, coded_rel.the_row.coded) };

    ghost view = { λ f. f.parts };
}

impl Formed {
    /// The program with its relations expanded, and its chains, `min`, `max` and `==>` as lets and
    /// tests. Matches stand in it as they did.
    pub fn typed(&self) -> &Typed
        ensures { result.now ≡ self.now.typed }
    {
        &self.parts.typed
    }

    /// The same, without what is told of chooses.
    pub fn into_typed(self) -> Typed
        ensures { result ≡ self.typed }
    {
        let parts = self.parts;
        parts.typed
    }

    /// What is told of the chooses of the source, in the order of the text.
    pub fn chooses(&self) -> &[ChooseInfo]
        ensures { result.now ≡ self.now.chooses.items }
    {
        &self.parts.chooses
    }
}

/// A program of edition 3 with the forms of language 2, which allows the same outcomes.
///
/// # Errors
/// `Cases` for the first choose with an atom of more than `MOST_ALTERNATIVES` alternatives; `Weight`
/// and then `Depth` for the first formed function that passes these limits. A choose with an
/// objective is read and not formed yet: for it the answer is want of memory.
pub fn form(alloc: Global, source: &Source) -> Result<Formed, FormFault>
    ensures { FormAnswer Plain (typed_tree source.now) result }
{
    match make(alloc, source.defs()) {
        Ok(made) => {
            let main = source.main();
            let typed = Typed::new(TypedDefs {
                defs: made.defs,
                main,
            });
            let chooses = made.chooses;
            Ok(Formed {
                parts: FormedParts { typed, chooses },
            })
        }
        Err(fault) => Err(fault),
    }
}
