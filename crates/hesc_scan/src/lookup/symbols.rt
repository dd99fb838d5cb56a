//! The class of unquoted values: the ASCII characters other than letters and digits.
ghost use Rattle.std.specs.Prelude.{◌≡◌, ◌<◌, ◌-◌, if◌then◌else◌, length, map};
ghost use Rattle.std.specs.Simd.Lanes.{Each1};
ghost use Rattle.hesc_specs.specs.Html.{image};
ghost use Rattle.hesc_specs.specs.Text.Classes.{in_class};
ghost use Rattle.hesc_specs.specs.declared.classes.Class.TheVariants.{UnquotedAttribute};

use crate::length::added::AddedLength;
use crate::lookup::Lookup;
use std::simd::prelude::*;

/// That class.
#[derive(Clone, Copy)]
pub(crate) struct Symbols;

impl Lookup for Symbols {
    ghost has = { λ _. in_class UnquotedAttribute };

    #[inline(always)]
    fn hits(&self, v: u8x32) -> u64 {
        symbols_of(v).simd_ne(u8x32::splat(0)).to_bitmask()
    }
}

impl AddedLength for Symbols {
    ghost of_byte = { λ _ b. length (image UnquotedAttribute b) - 1 };

    // A reference has six bytes, but that to `&` has five, and those to `<` and `>` have four.
    #[inline(always)]
    fn of_lanes(&self, v: u8x32) -> u8x32 {
        let added = symbols_of(v) & u8x32::splat(5);
        let ampersand = v.simd_eq(u8x32::splat(b'&'));
        let added = ampersand.select(u8x32::splat(4), added);
        // `<` and `>` differ in one bit.
        let angle = (v | u8x32::splat(2)).simd_eq(u8x32::splat(b'>'));
        angle.select(u8x32::splat(3), added)
    }
}

// 255 for each symbol, and 0 for each other byte.
#[inline(always)]
fn symbols_of(v: u8x32) -> u8x32
    requires { Each1 (λ b. b < 256) v }
    ensures { result ≡ map (λ b. if in_class UnquotedAttribute b then 255 else 0) v }
{
    let letters = (v | u8x32::splat(0x20)) - u8x32::splat(b'a');
    let digits = v - u8x32::splat(b'0');
    let symbols = v.simd_lt(u8x32::splat(128))
        & letters.simd_ge(u8x32::splat(26))
        & digits.simd_ge(u8x32::splat(10));
    symbols.select(u8x32::splat(255), u8x32::splat(0))
}
