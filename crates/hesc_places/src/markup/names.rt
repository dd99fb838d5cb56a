//! The names that stood so far, in order, so that one more is looked up in a logarithm of their
//! number.
ghost use Rattle.std.specs.Prelude.{◌≡◌, ◌||◌, ℕ, List, bytes_eq, IfOk, OnOk};
ghost use Rattle.hesc_places.specs.Pages.StoodNames.{has};

use std::alloc::{AllocError, Allocator};
use std::collections::BTreeSet;

/// Adds a name, and answers whether it stood there before.
pub(crate) fn add_name<'n, A: Allocator + Clone>(
    names: &mut BTreeSet<&'n [u8], A>,
    name: &'n [u8],
) -> Result<bool, AllocError>
    ensures stood { IfOk result (λ stood. stood ≡ has names.old.keys name.now) }
    ensures added { OnOk result ((other : List ℕ) →
        has names.new.keys other ≡ (bytes_eq other name.now || has names.old.keys other)) }
{
    match names.insert(name) {
        Ok(is_new) => Ok(!is_new),
        Err(_) => Err(AllocError),
    }
}
