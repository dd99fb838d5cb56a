//! The first fault of texts that are bound to names.
ghost use Rattle.std.specs.Prelude.{◌≡◌, ◌<◌, ◌≤◌, ℕ, length, replicate, slice_index_or};
ghost use Rattle.std.specs.Option.{is_some};
ghost use Rattle.html_template.specs.FirstFault.{first_fault};
ghost use Rattle.html_template.specs.Templates.{texts_of};
ghost use Rattle.html_template_source.specs.Bindings.{
  binding_faults,
  binding_told,
  bindings_of,
  bound,
  early_fault,
  slot_faults,
  slot_told,
};
ghost use Rattle.html_template_source.specs.Names.{name_at};
ghost use Rattle.html_template_source.specs.Places.{text_at};
ghost use Rattle.html_template_source.specs.SlotNames.{slot_names};

use crate::faults::BindFault;
use crate::names::Names;
use crate::places::{NOWHERE, first_unbound, place_bindings};
use std::alloc::Allocator;

/// The first fault: of the bindings, one by one, and then of the slots. Where there is none, the binding
/// of each name has its place.
pub(crate) fn find_fault<A: Allocator + Copy>(
    names: &Names<'_, A>,
    bindings: &[(&str, &str)],
    places: &mut [usize],
) -> Option<BindFault>
    requires enough { length names.now.distinct.items ≤ length places.old }
    requires fresh { places.old ≡ replicate (length places.old) NOWHERE }
    ensures fault { result ≡ early_fault (bindings_of bindings.now) (slot_names names.now) }
    ensures placed { (k : ℕ) → k < length names.now.distinct.items
        → text_at (bindings_of bindings.now) (slice_index_or places.new k 0)
        ≡ bound (bindings_of bindings.now) (name_at (texts_of names.now.distinct.items) k) }
{
    match place_bindings(names, bindings, places) {
        Some(fault) => Some(fault),
        None => first_unbound(&names.numbers, places, bindings.len()),
    }
}

/// The same without places, for which there was no memory: each name is looked for again.
pub(crate) fn search_fault<A: Allocator + Copy>(
    names: &Names<'_, A>,
    bindings: &[(&str, &str)],
) -> Option<BindFault>
    ensures { result ≡ early_fault (bindings_of bindings.now) (slot_names names.now) }
{
    match first_refused(names, bindings) {
        Some(fault) => Some(fault),
        None => first_missing(names, bindings),
    }
}

// The first binding whose name is unknown, or that of a later one.
fn first_refused<A: Allocator + Copy>(
    names: &Names<'_, A>,
    bindings: &[(&str, &str)],
) -> Option<BindFault>
    ensures { result ≡ first_fault binding_told
        (binding_faults (texts_of names.now.distinct.items) (bindings_of bindings.now)) }
{
    let mut rest = bindings;
    'bindings: while let [(name, _), others @ ..] = rest {
        let place = bindings.len() - rest.len();
        if names.find(*name).is_none() {
            return Some(BindFault::Unknown(place));
        }
        if is_bound(others, *name) {
            return Some(BindFault::Doubled(place));
        }
        rest = others;
    }
    None
}

// The first slot whose name has no binding.
fn first_missing<A: Allocator + Copy>(
    names: &Names<'_, A>,
    bindings: &[(&str, &str)],
) -> Option<BindFault>
    ensures { result ≡ first_fault slot_told
        (slot_faults (bindings_of bindings.now) (slot_names names.now)) }
{
    let numbers = names.numbers.as_slice();
    let mut rest = numbers;
    'slots: while let [number, others @ ..] = rest {
        if !is_bound(bindings, names.name(*number)) {
            return Some(BindFault::Missing(numbers.len() - rest.len()));
        }
        rest = others;
    }
    None
}

// Whether a text is bound to the name.
fn is_bound(bindings: &[(&str, &str)], name: &str) -> bool
    ensures { result ≡ is_some (bound (bindings_of bindings.now) name.now) }
{
    let mut rest = bindings;
    'bindings: while let [(other, _), others @ ..] = rest {
        if *other == name {
            return true;
        }
        rest = others;
    }
    false
}
