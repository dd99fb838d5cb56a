//! The classes of the HTML encoders, but for that of unquoted values, looked up by low nibbles: no two
//! bytes of such a class end in the same nibble. So a table has for each nibble the byte of the class
//! that ends in it, and a byte is in the class exactly if it is its own entry.
ghost use Rattle.std.specs.Prelude.{◌≡◌, ◌≢◌, ◌<◌, ◌+◌, ◌-◌, ℕ, length, map, slice_index};
ghost use Rattle.std.specs.Simd.Lanes.{Each1, mask_l};
ghost use Rattle.hesc_specs.specs.Text.Classes.{in_class, IsHtml};
ghost use Rattle.hesc_specs.specs.Html.{image};
ghost use Rattle.hesc_specs.specs.declared.classes.Class.TheVariants.{UnquotedAttribute};
ghost use Rattle.hesc_scan.specs.Entries.{added_to, entry, is_entry, table_of};

use crate::length::added::AddedLength;
use crate::lookup::Lookup;
use hesc_specs::Class;
use std::simd::prelude::*;

// Where no byte of the class ends in a nibble, its entry ends in another: it is 0, and this one for
// the nibble 0.
const OTHER: u8 = 1;

// Each table stands twice, as a swizzle reads each 16 lanes.
const TEXT_MINIMAL: [u8; 32] = [
    OTHER, 0, 0, 0, 0, 0, b'&', 0, 0, 0, 0, 0, b'<', 0, 0, 0, //
    OTHER, 0, 0, 0, 0, 0, b'&', 0, 0, 0, 0, 0, b'<', 0, 0, 0, //
];

const TEXT: [u8; 32] = [
    OTHER, 0, 0, 0, 0, 0, b'&', 0, 0, 0, 0, 0, b'<', 0, b'>', 0, //
    OTHER, 0, 0, 0, 0, 0, b'&', 0, 0, 0, 0, 0, b'<', 0, b'>', 0, //
];

const DOUBLE_QUOTED: [u8; 32] = [
    OTHER, 0, b'"', 0, 0, 0, b'&', 0, 0, 0, 0, 0, b'<', 0, b'>', 0, //
    OTHER, 0, b'"', 0, 0, 0, b'&', 0, 0, 0, 0, 0, b'<', 0, b'>', 0, //
];

const SINGLE_QUOTED: [u8; 32] = [
    OTHER, 0, 0, 0, 0, 0, b'&', b'\'', 0, 0, 0, 0, b'<', 0, b'>', 0, //
    OTHER, 0, 0, 0, 0, 0, b'&', b'\'', 0, 0, 0, 0, b'<', 0, b'>', 0, //
];

const QUOTED: [u8; 32] = [
    OTHER, 0, b'"', 0, 0, 0, b'&', b'\'', 0, 0, 0, 0, b'<', 0, b'>', 0, //
    OTHER, 0, b'"', 0, 0, 0, b'&', b'\'', 0, 0, 0, 0, b'<', 0, b'>', 0, //
];

const SAFE: [u8; 32] = [
    OTHER, 0, b'"', 0, 0, 0, b'&', b'\'', 0, 0, 0, 0, b'<', 0, b'>', b'/', //
    OTHER, 0, b'"', 0, 0, 0, b'&', b'\'', 0, 0, 0, 0, b'<', 0, b'>', b'/', //
];

// How many bytes the reference to the byte that ends in each nibble has more than that byte.
const ADDED: [u8; 32] = [
    0, 0, 5, 0, 0, 0, 4, 5, 0, 0, 0, 0, 3, 0, 3, 5, //
    0, 0, 5, 0, 0, 0, 4, 5, 0, 0, 0, 0, 3, 0, 3, 5, //
];

// The table of a class; of unquoted values and of strings, any.
#[inline(always)]
fn entries_of(class: Class) -> &'static [u8; 32]
    ensures { result.now ≡ table_of class }
{
    match class {
        Class::TextMinimal => &TEXT_MINIMAL,
        Class::Text => &TEXT,
        Class::DoubleQuotedAttribute => &DOUBLE_QUOTED,
        Class::SingleQuotedAttribute => &SINGLE_QUOTED,
        Class::QuotedAttribute => &QUOTED,
        _ => &SAFE,
    }
}

/// A class with its table.
#[derive(Clone, Copy)]
pub(crate) struct Entries {
    class: Class,
    table: &'static [u8; 32],
    ghost html: { IsHtml class },
    ghost quoted: { class ≢ UnquotedAttribute },
    ghost of_class: { table.now ≡ table_of class },
}

impl Entries {
    /// The class with its table.
    #[inline(always)]
    pub(crate) fn of(class: Class) -> Entries
        requires html { IsHtml class }
        requires quoted { class ≢ UnquotedAttribute }
        ensures { result.class ≡ class }
    {
        Entries {
            class,
            table: entries_of(class),
        }
    }
}

impl Lookup for Entries {
    ghost has = { λ entries. in_class entries.class };

    #[inline(always)]
    fn hits(&self, v: u8x32) -> u64 {
        hits_of_entries(self.table, v)
    }
}

impl AddedLength for Entries {
    ghost of_byte = { λ entries b. length (image entries.class b) - 1 };

    #[inline(always)]
    fn of_lanes(&self, v: u8x32) -> u8x32 {
        added(self.table, v)
    }
}

// The entry of each byte's low nibble.
#[inline(always)]
fn entry_of_each(table: &[u8; 32], v: u8x32) -> u8x32
    requires twice { (nibble : ℕ) → nibble < 16
        → slice_index table.now (16 + nibble) ≡ slice_index table.now nibble }
    requires below { Each1 (λ b. b < 256) v }
    ensures { result ≡ map (entry table.now) v }
{
    u8x32::from_array(*table).swizzle_dyn_within::<16>(v & u8x32::splat(15))
}

// Bit `k` of the answer is set exactly if byte `k` is its own entry.
#[inline(always)]
fn hits_of_entries(table: &[u8; 32], v: u8x32) -> u64
    requires twice { (nibble : ℕ) → nibble < 16
        → slice_index table.now (16 + nibble) ≡ slice_index table.now nibble }
    requires below { Each1 (λ b. b < 256) v }
    ensures { result ≡ mask_l (map (is_entry table.now) v) }
{
    v.simd_eq(entry_of_each(table, v)).to_bitmask()
}

// How many bytes the reference to each byte that is its own entry has more than the byte.
#[inline(always)]
fn added(table: &[u8; 32], v: u8x32) -> u8x32
    requires twice { (nibble : ℕ) → nibble < 16
        → slice_index table.now (16 + nibble) ≡ slice_index table.now nibble }
    requires below { Each1 (λ b. b < 256) v }
    ensures { result ≡ map (added_to table.now) v }
{
    let added = entry_of_each(&ADDED, v);
    v.simd_eq(entry_of_each(table, v))
        .select(added, u8x32::splat(0))
}
