//! The pieces that objects and arrays are made of.
ghost use Rattle.std.specs.Prelude.{◌≡◌, ◌++◌, OnOk};
ghost use Rattle.cf_json.specs.Texts.{gap, quoted, label};

use cf_tree::NoMemory;

// The comma and the space before item `i`: none before the first.
pub fn put_gap(out: &mut Vec<u8>, i: usize) -> Result<(), NoMemory>
    ensures { OnOk result (out.new.items ≡ out.old.items ++ gap i) }
{
    if 0 < i {
        out.extend_from_slice(b", ")?;
    }
    Ok(())
}

// A word between quotes.
pub fn put_quoted(out: &mut Vec<u8>, word: &[u8]) -> Result<(), NoMemory>
    ensures { OnOk result (out.new.items ≡ out.old.items ++ quoted word.now) }
{
    out.push(b'"')?;
    out.extend_from_slice(word)?;
    out.push(b'"')?;
    Ok(())
}

// What stands before the value of a member of this name.
pub fn put_label(out: &mut Vec<u8>, name: &[u8]) -> Result<(), NoMemory>
    ensures { OnOk result (out.new.items ≡ out.old.items ++ label name.now) }
{
    put_quoted(out, name)?;
    out.extend_from_slice(b": ")?;
    Ok(())
}
