//! What is done at each form of a code.
ghost use Rattle.std.specs.Prelude.{◌≡◌, ◌≤◌, ◌+◌, ℕ, OnOk};
ghost use Rattle.cf_tree.specs.CodeTree.{CodeTree};
ghost use Rattle.cf_tree.specs.CodeView.{code_tree};
ghost use Rattle.cf_tree.specs.RelSize.{capped};
ghost use Rattle.cf_pass.specs.Improves.{Improves};

use cf_tree::{Code, NoMemory};
use std::alloc::Global;

// A way to rewrite a form whose parts are rewritten.
pub(crate) trait Rule {
    // How many units it has replaced. At its last value this count stays.
    ghost tally: { Self → ℕ };

    // What it makes of a form outside which that many variables are bound.
    ghost made: { ℕ → CodeTree → CodeTree };

    // How many units it replaces there.
    ghost units: { ℕ → CodeTree → ℕ };

    // Rewrites the form, outside which `outside` variables are bound. After want of memory what was replaced stands.
    fn apply(&mut self, alloc: Global, outside: u32, code: &mut Code) -> Result<(), NoMemory>
        ensures code { Improves outside (code_tree code.old) (code_tree code.new) }
        ensures tally { tally self.old ≤ tally self.new }
        ensures made { OnOk result (code_tree code.new ≡ made outside (code_tree code.old)) }
        ensures units { OnOk result (tally self.new ≡ capped (tally self.old + units outside (code_tree code.old))) };
}
