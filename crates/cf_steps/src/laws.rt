//! What holds of printed blocks.
ghost use Rattle.cf_steps.specs.Laws.{PrintedReadsBack};

/// Where blocks have a spelling, the tokens of their printed forms, one after the other, spell these
/// blocks and no others.
#[tactic(auto, using(crate::proofs::Printing::blocks_read_back))]
pub fn printed_blocks_are_read_back()
    ensures { PrintedReadsBack }
{}
