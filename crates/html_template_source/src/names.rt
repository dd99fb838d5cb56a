//! The names of the slots of a template.
ghost use Rattle.std.specs.Prelude.{◌≡◌, ◌↔◌, ◌<◌, ◌≤◌, ◌||◌, ℕ, List, IfOk, IsTrue, OnOk, bytes_eq, length, map};
ghost use Rattle.html_template.specs.Templates.{texts_of};
ghost use Rattle.html_template_source.specs.Bindings.{bindings_of, is_among};
ghost use Rattle.html_template_source.specs.Names.{
  AreBelow,
  AreSingle,
  AreUsed,
  IsIndexOf,
  name_at,
  number_of,
};

use std::alloc::{AllocError, Allocator};
use std::collections::BTreeMap;

/// The names of slots, each once, numbered in the order of their first slots.
#[derive(Drop)]
pub struct Names<'a, A: Allocator> {
    /// The names, by number.
    pub distinct: Vec<&'a str, A>,
    /// The number of each slot's name.
    pub numbers: Vec<usize, A>,
    // The number of each name.
    found: BTreeMap<&'a str, usize, A>,
    // The number that a name may have, by its bytes: a wrong one costs time alone.
    guesses: Vec<usize, A>,
    ghost single: { AreSingle (texts_of distinct.items) },
    ghost below: { AreBelow (length distinct.items) numbers.items },
    ghost indexed: { IsIndexOf found (texts_of distinct.items) },
    ghost used: { AreUsed (texts_of distinct.items) numbers.items },
}

impl<'a, A: Allocator + Copy> Names<'a, A> {
    /// The names of these slots.
    pub(crate) fn of(alloc: A, slots: &[&'a str]) -> Result<Names<'a, A>, AllocError>
        ensures { IfOk result (λ names. map (name_at (texts_of names.distinct.items))
            names.numbers.items ≡ texts_of slots.now) }
    {
        let mut distinct = Vec::new(alloc);
        let mut numbers = Vec::with_capacity(alloc, slots.len())?;
        let mut found = BTreeMap::new(alloc);
        let mut recent = [0; RECENT];
        let mut rest = slots;
        'slots: while let [name, others @ ..] = rest {
            let guess = guess_of(&recent, *name);
            let number = take_name(&mut distinct, &mut found, *name, guess)?;
            if number != guess {
                put_guess(&mut recent, *name, number);
            }
            numbers.push(number)?;
            rest = others;
        }
        let guesses = guesses_of(alloc, &distinct)?;
        Ok(Names {
            distinct,
            numbers,
            found,
            guesses,
        })
    }

    /// The name of this number.
    pub(crate) fn name(&self, number: usize) -> &'a str
        ensures { result.now ≡ name_at (texts_of self.now.distinct.items) number }
    {
        match self.distinct.get(number) {
            Some(name) => *name,
            None => "",
        }
    }

    /// The number of a name, mostly by one comparison.
    #[inline(always)]
    pub(crate) fn find(&self, name: &str) -> Option<usize>
        ensures { result ≡ number_of name.now (texts_of self.now.distinct.items) }
    {
        let guess = guess_of(&self.guesses, name);
        if let Some(other) = self.distinct.get(guess) {
            if name == *other {
                return Some(guess);
            }
        }
        self.found.get(name).copied()
    }

    /// Whether the names of the bindings are these, in order.
    #[inline(always)]
    pub(crate) fn are_in_order(&self, bindings: &[(&str, &str)]) -> bool
        ensures { IsTrue result ↔ (map (λ b. b.name) (bindings_of bindings.now)
            ≡ texts_of self.now.distinct.items) }
    {
        let mut rest = self.distinct.as_slice();
        let mut left = bindings;
        'names: while let [name, others @ ..] = rest {
            let [(other, _), more @ ..] = left else {
                return false;
            };
            if *name != *other {
                return false;
            }
            rest = others;
            left = more;
        }
        left.is_empty()
    }
}

// The number of a slot's name. It costs one comparison where it is the number that is guessed.
fn take_name<'a, A: Allocator + Copy>(
    distinct: &mut Vec<&'a str, A>,
    found: &mut BTreeMap<&'a str, usize, A>,
    name: &'a str,
    guess: usize,
) -> Result<usize, AllocError>
    requires single { AreSingle (texts_of distinct.old.items) }
    requires indexed { IsIndexOf found.old (texts_of distinct.old.items) }
    ensures single { OnOk result (AreSingle (texts_of distinct.new.items)) }
    ensures indexed { OnOk result (IsIndexOf found.new (texts_of distinct.new.items)) }
    ensures among { OnOk result ((other : List ℕ) → is_among other (texts_of distinct.new.items)
        ≡ (is_among other (texts_of distinct.old.items) || bytes_eq other name.now)) }
    ensures longer { OnOk result (length distinct.old.items ≤ length distinct.new.items) }
    ensures same { OnOk result ((number : ℕ) → number < length distinct.old.items
        → name_at (texts_of distinct.new.items) number
        ≡ name_at (texts_of distinct.old.items) number) }
    ensures number { IfOk result (λ number. number < length distinct.new.items) }
    ensures name { IfOk result (λ number.
        name_at (texts_of distinct.new.items) number ≡ name.now) }
{
    if let Some(other) = distinct.get(guess) {
        if name == *other {
            return Ok(guess);
        }
    }
    add_name(distinct, found, name)
}

// The number of a name, which is added where it is new.
fn add_name<'a, A: Allocator + Copy>(
    distinct: &mut Vec<&'a str, A>,
    found: &mut BTreeMap<&'a str, usize, A>,
    name: &'a str,
) -> Result<usize, AllocError>
    requires single { AreSingle (texts_of distinct.old.items) }
    requires indexed { IsIndexOf found.old (texts_of distinct.old.items) }
    ensures single { OnOk result (AreSingle (texts_of distinct.new.items)) }
    ensures indexed { OnOk result (IsIndexOf found.new (texts_of distinct.new.items)) }
    ensures among { OnOk result ((other : List ℕ) → is_among other (texts_of distinct.new.items)
        ≡ (is_among other (texts_of distinct.old.items) || bytes_eq other name.now)) }
    ensures longer { OnOk result (length distinct.old.items ≤ length distinct.new.items) }
    ensures same { OnOk result ((number : ℕ) → number < length distinct.old.items
        → name_at (texts_of distinct.new.items) number
        ≡ name_at (texts_of distinct.old.items) number) }
    ensures number { IfOk result (λ number. number < length distinct.new.items) }
    ensures name { IfOk result (λ number.
        name_at (texts_of distinct.new.items) number ≡ name.now) }
{
    if let Some(number) = found.get(name).copied() {
        return Ok(number);
    }
    let number = distinct.len();
    let Ok(_) = found.insert(name, number) else {
        return Err(AllocError);
    };
    match distinct.push(name) {
        Ok(()) => Ok(number),
        Err(_) => Err(AllocError),
    }
}

// So many guesses are kept while the slots are gone through.
const RECENT: usize = 64;

// So many places for each name, so that few names share one.
const SPREAD: usize = 4;

// For each name its number, at the place of the name.
fn guesses_of<A: Allocator>(alloc: A, distinct: &[&str]) -> Result<Vec<usize, A>, AllocError> {
    let mut guesses = vec![in alloc; 0; distinct.len().saturating_mul(SPREAD)]?;
    for (number, name) in distinct.iter().enumerate() {
        put_guess(&mut guesses, *name, number);
    }
    Ok(guesses)
}

#[inline(always)]
fn put_guess(guesses: &mut [usize], name: &str, number: usize) {
    let place = place_of(name, guesses.len());
    if let Some(guess) = guesses.get_mut(place) {
        *guess = number;
    }
}

#[inline(always)]
fn guess_of(guesses: &[usize], name: &str) -> usize {
    match guesses.get(place_of(name, guesses.len())) {
        Some(guess) => *guess,
        None => 0,
    }
}

// Where a name has its guess, of so many places: a product of its first and last bytes.
#[inline(always)]
fn place_of(name: &str, places: usize) -> usize {
    let bytes = name.as_bytes();
    let (first, last) = match (bytes.first_chunk::<4>(), bytes.last_chunk::<4>()) {
        (Some(first), Some(last)) => (u32::from_le_bytes(*first), u32::from_le_bytes(*last)),
        _ => match bytes {
            [first, .., last] => (*first as u32, *last as u32),
            [only] => (*only as u32, 0),
            [] => (0, 0),
        },
    };
    let both = (first as u64).wrapping_add((last as u64) << 32);
    let mixed = both
        .wrapping_add(bytes.len() as u64)
        .wrapping_mul(0x9E37_79B9_7F4A_7C15);
    ((mixed >> 32).wrapping_mul(places as u64) >> 32) as usize
}
