//! Lists to which an item is added, if there is one.

ghost use Rattle.std.specs.Prelude.{◌≡◌, ◌++◌, OnOk, option_to_list};

use domain_api::NoMemory;

/// Appends an item, if there is one.
pub fn push_some<T: Drop>(items: &mut Vec<T>, item: Option<T>) -> Result<(), NoMemory>
    ensures { OnOk result (items.new.items ≡ items.old.items ++ option_to_list item) }
{
    match item {
        Some(item) => Ok(items.push(item)?),
        None => Ok(()),
    }
}
