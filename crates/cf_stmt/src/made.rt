//! The statements of a code.
ghost use Rattle.std.specs.Prelude.{IfOk};
ghost use Rattle.cf_tree.specs.CodeView.{code_tree};
ghost use Rattle.cf_stmt.specs.BlockView.{block_tree};
ghost use Rattle.cf_stmt.specs.Statements.{IsStatements};

use crate::block::Block;
use crate::guards::guarded;
use crate::walk::block_of;
use cf_tree::{Code, NoMemory};
use std::alloc::Global;

/// The statements that give what a code gives, with the same greatest number met. In them only expressions of depth at
/// most `DEEPEST` are evaluated.
pub fn statements(alloc: Global, code: &Code) -> Result<Box<Block>, NoMemory>
    ensures { IfOk result (λ b. IsStatements (code_tree code.now) (block_tree b.value)) }
{
    let block = block_of(alloc, code, 0)?;
    guarded(alloc, block)
}
