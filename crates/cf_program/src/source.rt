//! Programs of edition 3.
ghost use Rattle.std.specs.Prelude.{◌≡◌};
ghost use Rattle.cf_program.specs.Typed.{IsSource, IsLateSource};

use crate::typed::TypedDefs;
use cf_tree::Def;
use std::marker::Model;

/// A program of edition 3 in which no rule is broken, before it has the forms of language 2: its
/// bodies have the types that are declared and call only earlier functions, its relations, what is
/// given and its objectives are linear, its numbers of chooses differ, the names of its functions
/// differ and so do those of the parameters of each. Contracts see the `TypedDefs` that it was made
/// of.
#[derive(Drop)]
pub struct Source {
    program: TypedDefs,
}

impl Model for Source {
    ghost use Rattle.cf_program.specs.declared.typed.TypedDefs.{TypedDefs};

    ghost Value = { TypedDefs };

    ghost use Rattle.cf_tree.specs.contracts.expr.Expr as coded_expr;
    ghost use Rattle.std.specs.Coded.{codes};

    ghost coded = { Prim.hlevel (codes, coded_expr.the_row.coded) };

    ghost use Rattle.cf_program.specs.Typed.{IsSource};

    ghost view = { λ s. s.program };

    ghost invariant = { λ s. IsSource s.program };
}

impl Source {
    /// The source of these functions, of which number `main`, counted from 0, has that name.
    pub fn new(program: TypedDefs) -> Source
        requires { IsSource program }
        ensures { result ≡ program }
    {
        Source { program }
    }

    /// Its functions, in the order of the text.
    pub fn defs(&self) -> &[Def]
        ensures value { result.now ≡ self.now.defs.items }
        ensures typed { IsSource self.now }
    {
        &self.program.defs
    }

    /// The number of the function that is named `main`, counted from 0.
    pub fn main(&self) -> u32
        ensures value { result ≡ self.now.main }
        ensures typed { IsSource self.now }
    {
        self.program.main
    }
}

/// A program of edition 3 in which no rule is broken once the numbers in the scope of each `choose`
/// are known: a product in its relation or objective may have a side of them. Otherwise it keeps
/// what a `Source` does. Contracts see the `TypedDefs` that it was made of.
#[derive(Drop)]
pub struct LateSource {
    program: TypedDefs,
}

impl Model for LateSource {
    ghost use Rattle.cf_program.specs.declared.typed.TypedDefs.{TypedDefs};

    ghost Value = { TypedDefs };

    ghost use Rattle.cf_tree.specs.contracts.expr.Expr as coded_expr;
    ghost use Rattle.std.specs.Coded.{codes};

    ghost coded = { Prim.hlevel (codes, coded_expr.the_row.coded) };

    ghost use Rattle.cf_program.specs.Typed.{IsLateSource};

    ghost view = { λ s. s.program };

    ghost invariant = { λ s. IsLateSource s.program };
}

impl LateSource {
    /// The source of these functions, of which number `main`, counted from 0, has that name.
    pub fn new(program: TypedDefs) -> LateSource
        requires { IsLateSource program }
        ensures { result ≡ program }
    {
        LateSource { program }
    }

    /// Its functions, in the order of the text.
    pub fn defs(&self) -> &[Def]
        ensures value { result.now ≡ self.now.defs.items }
        ensures typed { IsLateSource self.now }
    {
        &self.program.defs
    }

    /// The number of the function that is named `main`, counted from 0.
    pub fn main(&self) -> u32
        ensures value { result ≡ self.now.main }
        ensures typed { IsLateSource self.now }
    {
        self.program.main
    }
}
