//! A choose of a program, lent by its trees.
ghost use Rattle.std.specs.Prelude.{◌≡◌, IfOk};
ghost use Rattle.cf_tree.specs.Params.{bases_of};

use crate::base::Base;
use crate::memory::NoMemory;
use crate::raw::Param;
use crate::rel::Rel;
use std::alloc::Global;

/// A choose: its number, the variables in scope by level, the bases of its outputs, and its relation.
#[derive(Clone, Copy)]
pub struct Choose<'a> {
    pub number: u32,
    pub scope: &'a [Param],
    pub outputs: &'a [Base],
    pub rel: &'a Rel,
}

/// The bases of parameters, or of the variables in a scope.
pub fn bases(alloc: Global, params: &[Param]) -> Result<Vec<Base>, NoMemory>
    ensures { IfOk result (λ bases. bases.items ≡ bases_of params.now) }
{
    let mut bases = Vec::new(alloc);
    for param in params {
        bases.push(param.base)?;
    }
    Ok(bases)
}
