//! A caller: a form that a stranger posted, read.
ghost use Rattle.std.specs.Prelude.{◌≡◌, IfOk};
ghost use Rattle.std.specs.Option.{option_and_then, option_map};
ghost use Rattle.std.specs.String.{string_bytes};
ghost use Rattle.hesc_places.specs.Words.{form_reading, reading, value_of};
ghost use Rattle.hesc_grammars.specs.declared.place.Place.TheVariants.{DoubleAttribute};

use hesc_places::{Place, read_form, read_place};
use std::alloc::{AllocError, Global};

/// The string that the posted form's script hands to `alert`, if the bytes begin with a form.
pub fn posted_script(alloc: Global, posted: &[u8]) -> Result<Option<Vec<u8>>, AllocError>
    ensures { IfOk result (λ script. option_map (λ s. s.items) script
        ≡ option_map (λ form. form.script) (form_reading posted.now)) }
{
    match read_form(alloc, posted)? {
        Some(form) => Ok(Some(form.script)),
        None => Ok(None),
    }
}

/// The value of the posted form's attribute of this name, if the bytes begin with a form that has one.
pub fn posted_value(alloc: Global, posted: &[u8], name: &str) -> Result<Option<Vec<u8>>, AllocError>
    ensures { IfOk result (λ value. option_map (λ v. v.items) value
        ≡ option_and_then (λ form. value_of name.now form.attributes) (form_reading posted.now)) }
{
    let Some(form) = read_form(alloc, posted)? else {
        return Ok(None);
    };
    match form.value_of(name) {
        Some(value) => Ok(Some(Vec::from_slice(alloc, value)?)),
        None => Ok(None),
    }
}

/// The value of an attribute whose opening `"` stands right before the source, as a text.
pub fn value_text(alloc: Global, source: &str) -> Result<Option<String>, AllocError>
    ensures { IfOk result (λ value. option_map (λ v. string_bytes v) value
        ≡ option_map (λ read. read.0) (reading DoubleAttribute source.now)) }
{
    let Some(reading) = read_place(alloc, Place::DoubleAttribute, source.as_bytes())? else {
        return Ok(None);
    };
    match String::from_utf8(reading.value) {
        Ok(value) => Ok(Some(value)),
        Err(_) => unreachable!(),
    }
}
