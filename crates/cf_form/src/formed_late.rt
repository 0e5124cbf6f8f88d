//! Late programs of edition 3 with the forms of language 2.
#![tactic(auto)]

ghost use Rattle.std.specs.Prelude.{◌≡◌};
ghost use Rattle.cf_program.specs.Typed.{typed_tree};
ghost use Rattle.cf_form.specs.FormAnswers.{LateFormAnswer};

use crate::fault::FormFault;
use crate::made::make;
use crate::told::ChooseInfo;
use cf_program::{Late, LateSource, TypedDefs};
use std::alloc::Global;
use std::marker::Model;

/// A late program, and what is told of the chooses of the program that it was made of.
#[derive(Drop)]
pub struct FormedLateParts {
    pub late: Late,
    pub chooses: Vec<ChooseInfo>,
}

/// A late program with the forms of language 2 alone, and what is told of the chooses of the source
/// that it was made of, in the order of the text. Contracts see the `FormedLateParts` that it was
/// made of.
#[derive(Drop)]
pub struct FormedLate {
    parts: FormedLateParts,
}

impl Model for FormedLate {
    ghost use Rattle.cf_form.specs.declared.formed_late.FormedLateParts.{FormedLateParts};

    ghost Value = { FormedLateParts };

    ghost use Rattle.cf_tree.specs.contracts.expr.Expr as coded_expr;
    ghost use Rattle.cf_tree.specs.contracts.rel.Rel as coded_rel;
    ghost use Rattle.std.specs.Coded.{codes};

    ghost coded = { Prim.hlevel (codes, coded_expr.the_row.coded, coded_rel.the_row.coded) };

    ghost view = { λ f. f.parts };
}

impl FormedLate {
    /// The program with its relations expanded, and its chains, `min`, `max` and `==>` as lets and
    /// tests. Matches stand in it as they did.
    pub fn late(&self) -> &Late
        ensures { result.now ≡ self.now.late }
    {
        &self.parts.late
    }

    /// The same, without what is told of chooses.
    pub fn into_late(self) -> Late
        ensures { result ≡ self.late }
    {
        let parts = self.parts;
        parts.late
    }

    /// What is told of the chooses of the source, in the order of the text.
    pub fn chooses(&self) -> &[ChooseInfo]
        ensures { result.now ≡ self.now.chooses.items }
    {
        &self.parts.chooses
    }
}

/// A late program of edition 3 with the forms of language 2, which allows the same outcomes.
///
/// # Errors
/// As those of `form`.
pub fn form_late(alloc: Global, source: &LateSource) -> Result<FormedLate, FormFault>
    ensures { LateFormAnswer (typed_tree source.now) result }
{
    match make(alloc, source.defs()) {
        Ok(made) => {
            let main = source.main();
            let late = Late::new(TypedDefs {
                defs: made.defs,
                main,
            });
            let chooses = made.chooses;
            Ok(FormedLate {
                parts: FormedLateParts { late, chooses },
            })
        }
        Err(fault) => Err(fault),
    }
}
