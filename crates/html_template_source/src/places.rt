//! Where the bindings of names stand, and the first fault that is told by it.
ghost use Rattle.std.specs.Prelude.{◌≡◌, ◌<◌, ◌≤◌, ℕ, IfSome, length, replicate, slice_index_or};
ghost use Rattle.std.specs.Option.{option_map};
ghost use Rattle.html_template.specs.FirstFault.{first_fault};
ghost use Rattle.html_template.specs.Templates.{texts_of};
ghost use Rattle.html_template_source.specs.Bindings.{
  binding_faults,
  binding_told,
  bindings_of,
  bound,
  slot_told,
};
ghost use Rattle.html_template_source.specs.Names.{name_at};
ghost use Rattle.html_template_source.specs.Places.{
  is_taken,
  listed,
  places_after,
  placing_fault,
  text_at,
  unplaced,
};

use crate::faults::BindFault;
use crate::names::Names;
use std::alloc::Allocator;

/// The place of a binding that is not there.
pub(crate) const NOWHERE: usize = usize::MAX;

/// Of so many names the bindings are placed in one pass, without a request for memory.
pub(crate) const BLOCK: usize = 256;

/// The place of the binding of each name, by the number of the name.
#[derive(Drop)]
pub(crate) enum Places<A: Allocator> {
    /// The bindings stand in the order of the names.
    InOrder,
    Block([usize; BLOCK]),
    Many(Vec<usize, A>),
}

impl<A: Allocator> Places<A> {
    /// The places, unless the bindings stand in the order of the names.
    #[inline(always)]
    pub(crate) fn as_slice(&self) -> Option<&[usize]>
        ensures { option_map (λ places. places.now) result ≡ listed self.now }
    {
        match self {
            Places::InOrder => None,
            Places::Block(block) => Some(block.as_slice()),
            Places::Many(places) => Some(places.as_slice()),
        }
    }
}

/// Puts down where the binding of each name stands, from the last one on, and answers the first fault of
/// the bindings.
pub(crate) fn place_bindings<A: Allocator + Copy>(
    names: &Names<'_, A>,
    bindings: &[(&str, &str)],
    places: &mut [usize],
) -> Option<BindFault>
    requires enough { length names.now.distinct.items ≤ length places.old }
    requires fresh { places.old ≡ replicate (length places.old) NOWHERE }
    ensures fault { result ≡ first_fault binding_told
        (binding_faults (texts_of names.now.distinct.items) (bindings_of bindings.now)) }
    ensures placed { (k : ℕ) → k < length names.now.distinct.items
        → text_at (bindings_of bindings.now) (slice_index_or places.new k 0)
        ≡ bound (bindings_of bindings.now) (name_at (texts_of names.now.distinct.items) k) }
{
    let mut first = None;
    let mut rest = bindings;
    'bindings: while let [others @ .., (name, _)] = rest {
        let number = names.find(*name);
        first = put_place(places, number, others.len(), bindings.len()).or(first);
        rest = others;
    }
    first
}

// Puts down where a binding of the name of this number stands, and answers its fault.
fn put_place(
    places: &mut [usize],
    number: Option<usize>,
    place: usize,
    count: usize,
) -> Option<BindFault>
    requires { IfSome number (λ number. number < length places.old) }
    ensures fault { result ≡ option_map (binding_told place) (placing_fault count number places.old) }
    ensures places { places.new ≡ places_after place number places.old }
{
    let Some(number) = number else {
        return Some(BindFault::Unknown(place));
    };
    let was = places[number];
    places[number] = place;
    if was < count {
        Some(BindFault::Doubled(place))
    } else {
        None
    }
}

/// The first slot whose name has no binding, of so many that are put down.
pub(crate) fn first_unbound(numbers: &[usize], places: &[usize], count: usize) -> Option<BindFault>
    ensures { result ≡ first_fault slot_told (unplaced count places.now numbers.now) }
{
    let mut rest = numbers;
    'slots: while let [number, others @ ..] = rest {
        if !is_taken(places.get(*number), count) {
            return Some(BindFault::Missing(numbers.len() - rest.len()));
        }
        rest = others;
    }
    None
}

fn is_taken(place: Option<&usize>, count: usize) -> bool
    ensures { result ≡ is_taken count (option_map (λ place. place.now) place.entry) }
{
    match place {
        Some(place) => *place < count,
        None => false,
    }
}
