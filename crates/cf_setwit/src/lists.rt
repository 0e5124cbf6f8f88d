//! Lists that grow.
ghost use Rattle.std.specs.Prelude.{◌≡◌, ◌++◌, ◌∷◌, [], OnOk, if◌then◌else◌};

use cf_tree::NoMemory;

/// Adds the item, where it is wanted.
pub fn push_if<T: Drop>(items: &mut Vec<T>, is_wanted: bool, item: T) -> Result<(), NoMemory>
    ensures { OnOk result (items.new.items ≡ items.old.items ++ (if is_wanted then item ∷ [] else [])) }
{
    if is_wanted {
        items.push(item)?;
    }
    Ok(())
}
