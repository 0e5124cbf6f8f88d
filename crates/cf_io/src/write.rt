//! Writing all of some bytes.
ghost use Rattle.std.specs.Prelude.{◌≡◌, ◌≤◌, OnOk, OnErr};
ghost use Rattle.std.specs.Io.KnownBytes.{Appends};
ghost use Rattle.cf_io.specs.Bytes.{TookPrefix};
ghost use Rattle.cf_io.specs.Causes.{Rose, one_more};

use crate::faults::Failed;
use crate::traits::Sink;

/// Writes all the bytes. After a fault the sink took a prefix of them.
pub fn write_all<O: Sink>(out: &mut O, bytes: &[u8]) -> Result<(), Failed>
    ensures all { OnOk result (Appends (O.seen out.old).held (O.seen out.new).held bytes.now) }
    ensures prefix { TookPrefix (O.seen out.old).held (O.seen out.new).held bytes.now }
    ensures failed { OnErr result (Rose (O.seen out.old).faults (O.seen out.new).faults) }
    ensures counts { (O.seen out.old).faults ≤ (O.seen out.new).faults }
    ensures same { OnOk result ((O.seen out.new).faults ≡ (O.seen out.old).faults) }
    ensures once { OnErr result ((O.seen out.new).faults ≤ one_more (O.seen out.old).faults) }
{
    let mut at = 0usize;
    while at < bytes.len() {
        at += out.write(&bytes[at..])?;
    }
    Ok(())
}
