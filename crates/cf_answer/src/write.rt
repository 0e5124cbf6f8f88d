//! Writing a text.
ghost use Rattle.std.specs.Prelude.{◌≡◌, ◌⊎◌, true, false, Err, length, IfErr, OnOk, IsErrOf};
ghost use Rattle.std.specs.Io.KnownBytes.{Appends};
ghost use Rattle.cf_io.specs.Bytes.{TookPrefix};
ghost use Rattle.cf_io.specs.Limits.{IsWithin, IsPast};
ghost use Rattle.cf_answer.specs.Limits.{written_most};
ghost use Rattle.cf_answer.specs.Outside.{Counts};
ghost use Rattle.cf_answer.specs.Steps.{IsOutFault};

use crate::fault::Fault;
use crate::limits::longest_written;
use cf_io::{Failed, Sink, write_all};
use cf_tree::Edition;

/// Writes a text. After a fault the sink took a prefix of it.
///
/// # Errors
/// `Output`.
pub fn write_text<O: Sink>(out: &mut O, text: &[u8]) -> Result<(), Fault>
    ensures all { OnOk result (Appends (O.seen out.old).held (O.seen out.new).held text.now) }
    ensures prefix { TookPrefix (O.seen out.old).held (O.seen out.new).held text.now }
    ensures fault { IfErr result IsOutFault }
    ensures count { Counts (IsErrOf result Fault.Output) (O.seen out.old).faults (O.seen out.new).faults }
{
    match write_all(out, text) {
        Ok(()) => Ok(()),
        Err(Failed) => Err(Fault::Output),
    }
}

/// Writes the printed target or steps of a source of an edition, unless they are longer than their
/// readers take. Then nothing is written.
///
/// # Errors
/// `Output`, and `OutputTooLong`, which comes of edition 3 alone.
pub fn write_printed<O: Sink>(out: &mut O, edition: Edition, text: &[u8]) -> Result<(), Fault>
    ensures all { OnOk result (Appends (O.seen out.old).held (O.seen out.new).held text.now) }
    ensures prefix { TookPrefix (O.seen out.old).held (O.seen out.new).held text.now }
    ensures fits { (result ≡ Err Fault.OutputTooLong) ⊎ IsWithin (written_most edition) (length text.now) }
    ensures past { IsErrOf result Fault.OutputTooLong → IsPast (written_most edition) (length text.now) }
    ensures unwritten { IsErrOf result Fault.OutputTooLong → out.new ≡ out.old }
    ensures fault { IfErr result (λ e. IsOutFault e ⊎ (e ≡ Fault.OutputTooLong)) }
    ensures count { Counts (IsErrOf result Fault.Output) (O.seen out.old).faults (O.seen out.new).faults }
{
    if is_too_long(edition, text) {
        return Err(Fault::OutputTooLong);
    }
    write_text(out, text)
}

// Whether a text is past the limit of what is written for a source of an edition.
fn is_too_long(edition: Edition, text: &[u8]) -> bool
    ensures past { result ≡ true → IsPast (written_most edition) (length text.now) }
    ensures within { result ≡ false → IsWithin (written_most edition) (length text.now) }
{
    match edition {
        Edition::Two => false,
        Edition::Three => text.len() > longest_written(),
    }
}
