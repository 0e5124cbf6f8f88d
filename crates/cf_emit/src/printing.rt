//! Printed targets.
ghost use Rattle.std.specs.Prelude.{◌≡◌, ◌++◌, map, codes, IfOk, OnOk};
ghost use Rattle.cf_emit.specs.Printed.{base_text, header_text, line_end, listed, results_text, target_text};
ghost use Rattle.cf_emit.specs.ReadsBack.{ReadsBack};
ghost use Rattle.cf_target.specs.Spelling.{target_tree};
ghost use Rattle.cf_tree.specs.Spelled.{HasSpelling};

use crate::code::put_code;
use crate::list::{put_bases, put_results};
use cf_tree::{Base, Edition, NoMemory, Target};
use std::alloc::Global;

/// The printed form of a target, with the header of its edition. Where the target has a spelling, this text
/// is of that edition, and its tokens spell the target, and no other one.
pub fn print(alloc: Global, edition: Edition, target: &Target) -> Result<Vec<u8>, NoMemory>
    ensures text { IfOk result (λ bytes. bytes.items ≡ target_text edition target.now) }
    ensures reads_back { HasSpelling target.now → IfOk result (λ bytes. ReadsBack edition (target_tree target.now) bytes.items) }
{
    let mut out = Vec::new(alloc);
    put_target(&mut out, edition, target)?;
    Ok(out)
}

fn put_target(out: &mut Vec<u8>, edition: Edition, target: &Target) -> Result<(), NoMemory>
    ensures { OnOk result (out.new.items ≡ out.old.items ++ target_text edition target.now) }
{
    put_head(out, edition, target.params())?;
    put_results(out, target.results())?;
    out.extend_from_slice(b" = ")?;
    put_code(out, target.body())?;
    out.push(b'\n')?;
    Ok(())
}

fn put_header(out: &mut Vec<u8>, edition: Edition) -> Result<(), NoMemory>
    ensures { OnOk result (out.new.items ≡ out.old.items ++ header_text edition) }
{
    match edition {
        Edition::Two => out.extend_from_slice(b"comfusy 2")?,
        Edition::Three => out.extend_from_slice(b"comfusy 3")?,
    }
    Ok(())
}

// The header line, and main with its parameters.
fn put_head(out: &mut Vec<u8>, edition: Edition, params: &[Base]) -> Result<(), NoMemory>
    ensures { OnOk result (out.new.items ≡ out.old.items ++
        (header_text edition ++ line_end ++ codes "main (" ++ listed (map base_text params.now) ++ codes "): ")) }
{
    put_header(out, edition)?;
    out.extend_from_slice(b"\nmain (")?;
    put_bases(out, params)?;
    out.extend_from_slice(b"): ")?;
    Ok(())
}
