//! The classes of the string encoders, made of groups of bytes. A group is looked up by both nibbles
//! of 32 bytes at once: a byte is in it exactly if both its nibbles may be of it.
ghost use Rattle.std.specs.Prelude.{◌≡◌, ◌≢◌, ◌<◌, None, if◌then◌else◌, map};
ghost use Rattle.std.specs.Simd.Lanes.{Each1, mask_l};
ghost use Rattle.hesc_specs.specs.Strings.Encoding.{is_mark};
ghost use Rattle.hesc_specs.specs.Text.Classes.{in_class, string_class};
ghost use Rattle.hesc_scan.specs.Groups.{added_to, by_high, by_low, groups_in, in_groups, wanted_of};

use crate::length::added::AddedLength;
use crate::lookup::Lookup;
use hesc_specs::Class;
use std::simd::prelude::*;

const CONTROLS: u8 = 1;

// The mark `'`.
const SINGLE: u8 = 2;

// The mark `"`.
const DOUBLE: u8 = 4;

const LESS_OR_BACKSLASH: u8 = 8;

const LEAD: u8 = 16;

// What is in the classes of all style strings: the C0 controls, `<` and `\`.
const STYLE: u8 = CONTROLS | LESS_OR_BACKSLASH;

// What is in the classes of all script strings: the same, and the first byte of U+2028 and U+2029.
const SCRIPT: u8 = STYLE | LEAD;

// The low nibbles of bytes in more groups than that of the controls, which may end in any: `"` and
// the lead byte E2 end in 2, `'` ends in 7, `<` and `\` end in C.
const ENDS_IN_2: u8 = CONTROLS | DOUBLE | LEAD;

const ENDS_IN_7: u8 = CONTROLS | SINGLE;

const ENDS_IN_C: u8 = CONTROLS | LESS_OR_BACKSLASH;

const ENDS_ELSE: u8 = CONTROLS;

/// The groups that a byte may be of, by its low nibble; twice, as a swizzle reads each 16 lanes.
const BY_LOW_NIBBLE: [u8; 32] = [
    ENDS_ELSE, ENDS_ELSE, ENDS_IN_2, ENDS_ELSE, ENDS_ELSE, ENDS_ELSE, ENDS_ELSE, ENDS_IN_7,
    ENDS_ELSE, ENDS_ELSE, ENDS_ELSE, ENDS_ELSE, ENDS_IN_C, ENDS_ELSE, ENDS_ELSE, ENDS_ELSE,
    ENDS_ELSE, ENDS_ELSE, ENDS_IN_2, ENDS_ELSE, ENDS_ELSE, ENDS_ELSE, ENDS_ELSE, ENDS_IN_7,
    ENDS_ELSE, ENDS_ELSE, ENDS_ELSE, ENDS_ELSE, ENDS_IN_C, ENDS_ELSE, ENDS_ELSE, ENDS_ELSE,
];

// The high nibbles: the controls begin with 0 and 1, both marks with 2, `<` with 3, `\` with 5, and
// the lead byte with E.
const MARKS: u8 = SINGLE | DOUBLE;

const LESS: u8 = LESS_OR_BACKSLASH;

const BACKSLASH: u8 = LESS_OR_BACKSLASH;

const NONE: u8 = 0;

/// The groups that a byte may be of, by its high nibble; twice.
const BY_HIGH_NIBBLE: [u8; 32] = [
    CONTROLS, CONTROLS, MARKS, LESS, NONE, BACKSLASH, NONE, NONE, //
    NONE, NONE, NONE, NONE, NONE, NONE, LEAD, NONE, //
    CONTROLS, CONTROLS, MARKS, LESS, NONE, BACKSLASH, NONE, NONE, //
    NONE, NONE, NONE, NONE, NONE, NONE, LEAD, NONE, //
];

// By how many bytes the escape of a byte that begins with each nibble is longer at most: marks and `\`
// become two bytes, other ASCII characters four or fewer, and a separator's three become six.
const ADDED: [u8; 32] = [
    3, 3, 1, 3, 0, 1, 0, 0, 0, 0, 0, 0, 0, 0, 3, 0, //
    3, 3, 1, 3, 0, 1, 0, 0, 0, 0, 0, 0, 0, 0, 3, 0, //
];

// The groups of a string encoder's class; of another's, any.
#[inline(always)]
fn groups_of(class: Class) -> u8
    ensures { result ≡ groups_in class }
{
    match class {
        Class::ScriptSingleQuoted => SCRIPT | SINGLE,
        Class::ScriptDoubleQuoted => SCRIPT | DOUBLE,
        Class::ScriptQuoted => SCRIPT | SINGLE | DOUBLE,
        Class::StyleSingleQuoted => STYLE | SINGLE,
        Class::StyleDoubleQuoted => STYLE | DOUBLE,
        _ => STYLE | SINGLE | DOUBLE,
    }
}

/// A class with the groups that it is made of.
#[derive(Clone, Copy)]
pub(crate) struct Groups {
    class: Class,
    wanted: u8,
    ghost string: { string_class class ≢ None },
    ghost of_class: { wanted ≡ groups_in class },
}

impl Groups {
    /// The class with its groups.
    #[inline(always)]
    pub(crate) fn of(class: Class) -> Groups
        requires { string_class class ≢ None }
        ensures { result.class ≡ class }
    {
        Groups {
            class,
            wanted: groups_of(class),
        }
    }
}

impl Lookup for Groups {
    ghost has = { λ groups. in_class groups.class };

    #[inline(always)]
    fn hits(&self, v: u8x32) -> u64 {
        hits_of_groups(self.wanted, v)
    }
}

impl AddedLength for Groups {
    ghost of_byte = { λ groups b. if in_class groups.class b then (if is_mark b then 1 else 3) else 0 };

    #[inline(always)]
    fn of_lanes(&self, v: u8x32) -> u8x32 {
        added(self.wanted, v)
    }
}

// Bit `k` of the answer is set exactly if byte `k` is in one of the wanted groups.
#[inline(always)]
fn hits_of_groups(wanted: u8, v: u8x32) -> u64
    requires { Each1 (λ b. b < 256) v }
    ensures { result ≡ mask_l (map (in_groups wanted) v) }
{
    wanted_of_each(wanted, v)
        .simd_ne(u8x32::splat(0))
        .to_bitmask()
}

// By how many bytes the escape of each byte in one of the wanted groups is longer at most.
#[inline(always)]
fn added(wanted: u8, v: u8x32) -> u8x32
    requires { Each1 (λ b. b < 256) v }
    ensures { result ≡ map (added_to wanted) v }
{
    let added = u8x32::from_array(ADDED).swizzle_dyn_within::<16>(v >> u8x32::splat(4));
    wanted_of_each(wanted, v)
        .simd_ne(u8x32::splat(0))
        .select(added, u8x32::splat(0))
}

// The wanted groups that each byte is in.
#[inline(always)]
fn wanted_of_each(wanted: u8, v: u8x32) -> u8x32
    requires { Each1 (λ b. b < 256) v }
    ensures { result ≡ map (wanted_of wanted) v }
{
    by_low_nibble(v) & by_high_nibble(v) & u8x32::splat(wanted)
}

#[inline(always)]
fn by_low_nibble(v: u8x32) -> u8x32
    requires { Each1 (λ b. b < 256) v }
    ensures { result ≡ map by_low v }
{
    u8x32::from_array(BY_LOW_NIBBLE).swizzle_dyn_within::<16>(v & u8x32::splat(15))
}

#[inline(always)]
fn by_high_nibble(v: u8x32) -> u8x32
    requires { Each1 (λ b. b < 256) v }
    ensures { result ≡ map by_high v }
{
    u8x32::from_array(BY_HIGH_NIBBLE).swizzle_dyn_within::<16>(v >> u8x32::splat(4))
}
