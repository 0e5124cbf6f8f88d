//! Typed programs.
ghost use Rattle.std.specs.Prelude.{◌≡◌};
ghost use Rattle.cf_program.specs.Typed.{IsTyped, IsLateTyped};

use cf_tree::Def;
use std::marker::Model;

/// Functions with levels in the place of names, and the number of the one that is named `main`.
#[derive(Drop)]
pub struct TypedDefs {
    pub defs: Vec<Def>,
    pub main: u32,
}

/// A program in which no rule is broken: its bodies have the types that are declared and call only
/// earlier functions, its relations are linear, its chooses have numbers from 1 on, the names of its
/// functions differ and so do those of the parameters of each, and it passes no limit of weight or
/// depth. Several chooses may have one number: the branches of one choose of edition 3. Contracts
/// see the `TypedDefs` that it was made of.
#[derive(Drop)]
pub struct Typed {
    program: TypedDefs,
}

impl Model for Typed {
    ghost use Rattle.cf_program.specs.declared.typed.TypedDefs.{TypedDefs};

    ghost Value = { TypedDefs };

    ghost use Rattle.cf_tree.specs.contracts.expr.Expr as coded_expr;
    ghost use Rattle.std.specs.Coded.{codes};

    ghost coded = { Prim.hlevel (codes, coded_expr.the_row.coded) };

    ghost use Rattle.cf_program.specs.Typed.{IsTyped};

    ghost view = { λ t. t.program };

    ghost invariant = { λ t. IsTyped t.program };
}

impl Typed {
    /// The program of these functions, of which number `main`, counted from 0, has that name.
    pub fn new(program: TypedDefs) -> Typed
        requires { IsTyped program }
        ensures { result ≡ program }
    {
        Typed { program }
    }

    /// Its functions, in the order of the text.
    pub fn defs(&self) -> &[Def]
        ensures value { result.now ≡ self.now.defs.items }
        ensures typed { IsTyped self.now }
    {
        &self.program.defs
    }

    /// The number of the function that is named `main`, counted from 0.
    pub fn main(&self) -> u32
        ensures value { result ≡ self.now.main }
        ensures typed { IsTyped self.now }
    {
        self.program.main
    }
}

/// A program in which no rule is broken once the numbers in the scope of each `choose` are known: a
/// product in its relation may have a side of them. Otherwise it keeps what a `Typed` does.
/// Contracts see the `TypedDefs` that it was made of.
#[derive(Drop)]
pub struct Late {
    program: TypedDefs,
}

impl Model for Late {
    ghost use Rattle.cf_program.specs.declared.typed.TypedDefs.{TypedDefs};

    ghost Value = { TypedDefs };

    ghost use Rattle.cf_tree.specs.contracts.expr.Expr as coded_expr;
    ghost use Rattle.std.specs.Coded.{codes};

    ghost coded = { Prim.hlevel (codes, coded_expr.the_row.coded) };

    ghost use Rattle.cf_program.specs.Typed.{IsLateTyped};

    ghost view = { λ t. t.program };

    ghost invariant = { λ t. IsLateTyped t.program };
}

impl Late {
    /// The program of these functions, of which number `main`, counted from 0, has that name.
    pub fn new(program: TypedDefs) -> Late
        requires { IsLateTyped program }
        ensures { result ≡ program }
    {
        Late { program }
    }

    /// Its functions, in the order of the text.
    pub fn defs(&self) -> &[Def]
        ensures value { result.now ≡ self.now.defs.items }
        ensures typed { IsLateTyped self.now }
    {
        &self.program.defs
    }

    /// The number of the function that is named `main`, counted from 0.
    pub fn main(&self) -> u32
        ensures value { result ≡ self.now.main }
        ensures typed { IsLateTyped self.now }
    {
        self.program.main
    }
}
