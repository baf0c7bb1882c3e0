//! Lists with room made at once for what is going to stand in them, so that they need not grow.
ghost use Rattle.std.specs.Prelude.{◌≡◌, [], IfOk};

use crate::members::is_of_each;
use crate::tree::as_object;
use json::Value;
use sc_base::{NoMemory, Sequence};
use std::alloc::Global;

/// An empty list with room for so many items.
pub(crate) fn with_room<T>(alloc: Global, room: usize) -> Result<Sequence<T>, NoMemory>
    ensures { IfOk result (λ s. s ≡ []) }
{
    let items = Vec::with_capacity(alloc, room)?;
    Ok(Sequence::from_vec(items))
}

/// How many members an object has that only some elements have.
pub(crate) fn own_members(value: &Value<'_>) -> usize {
    match as_object(value) {
        Some(members) => count_own(members),
        None => 0,
    }
}

fn count_own(members: &[(&str, Value<'_>)]) -> usize {
    members
        .iter()
        .filter(|m| !is_of_each(m.0.as_bytes()))
        .count()
}
