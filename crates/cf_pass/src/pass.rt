//! What each pass promises.
ghost use Rattle.std.specs.Prelude.{◌≡◌, ◌≤◌, ◌+◌, OnOk, is_ok};
ghost use Rattle.cf_tree.specs.CodeView.{code_tree};
ghost use Rattle.cf_tree.specs.RelSize.{capped};
ghost use Rattle.cf_pass.specs.Improves.{Improves, IsTypedBehind};
ghost use Rattle.cf_pass.specs.Passes.{IsPassName, Told};

use cf_tree::{Code, NoMemory};
use std::alloc::Global;

/// A way to rewrite code.
pub trait Pass: Drop {
    /// What it tells of itself: its name, how many units it has replaced, how often it was called to rewrite, what it makes
    /// of a code, and whether its last turn found its memory.
    ghost told: { Self → Told };

    /// Its name, which never changes: 1 to 32 bytes of `a` to `z`, `0` to `9` and `-`.
    fn name(&self) -> &str
        ensures name { result.now ≡ (told self.now).name }
        ensures shape { IsPassName result.now };

    /// How many units it has replaced. It stands still at `2^64 - 1`.
    fn tally(&self) -> u64
        ensures { result ≡ (told self.now).tally };

    /// Puts what it makes of the code in its place. Outside the code `outside` variables are bound.
    ///
    /// # Errors
    /// Want of memory. The replacements made so far stand.
    fn rewrite(&mut self, alloc: Global, outside: u32, code: &mut Code) -> Result<(), NoMemory>
        requires typed { IsTypedBehind outside (code_tree code.old) }
        ensures code { Improves outside (code_tree code.old) (code_tree code.new) }
        ensures name { (told self.new).name ≡ (told self.old).name }
        ensures tally { (told self.old).tally ≤ (told self.new).tally }
        ensures turns { (told self.new).turns ≡ capped ((told self.old).turns + 1) }
        ensures whole { (told self.new).whole ≡ is_ok result }
        ensures made { OnOk result (code_tree code.new ≡ (told self.old).makes outside (code_tree code.old)) };
}
