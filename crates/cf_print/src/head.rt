//! The top of a file: the source as a comment.
ghost use Rattle.std.specs.Prelude.{◌≡◌, ◌++◌, IfOk};
ghost use Rattle.cf_print.specs.Sources.{before_head as head_before, behind_head as head_behind, head_of as head_for};

use crate::comment::put_source;
use crate::language::Language;
use cf_tree::NoMemory;
use std::alloc::Global;

// What stands before the source at the top of a file.
fn before_head(language: Language) -> &'static [u8]
    ensures { result.now ≡ head_before language }
{
    match language {
        Language::Python =>
            b"\"\"\"Written by Comfusy from this source; each change belongs there.\n\n",
        Language::C =>
            b"/*\n * Written by Comfusy from this source; each change belongs there.\n *\n",
        Language::JavaScript | Language::Rust =>
            b"// Written by Comfusy from this source; each change belongs there.\n//\n",
    }
}

fn behind_head(language: Language) -> &'static [u8]
    ensures { result.now ≡ head_behind language }
{
    match language {
        Language::Python => b"\"\"\"\n\nfrom __future__ import annotations\n",
        Language::C => b" */\n\n",
        Language::JavaScript => b"",
        Language::Rust =>
            b"\n#![forbid(unsafe_code)]\n#![allow(non_snake_case, unused_variables)]\n",
    }
}

/// The source at the top of a file, and what stands behind it there.
pub fn head_of(alloc: Global, language: Language, source: &[u8]) -> Result<Vec<u8>, NoMemory>
    ensures { IfOk result (λ all. all.items ≡ head_for language source.now) }
{
    let mut all = Vec::from_slice(alloc, before_head(language))?;
    put_source(&mut all, language, source)?;
    all.extend_from_slice(behind_head(language))?;
    Ok(all)
}
