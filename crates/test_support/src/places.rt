//! The places, in a list that has them all, and the marks around a text in each.
use hesc_places::{End, Place};
use std::alloc::{AllocError, Global};

/// Every place, the unquoted value with each of its five ends.
pub static PLACES: [Place; 14] = [
    Place::Text,
    Place::DoubleAttribute,
    Place::SingleAttribute,
    Place::UnquotedAttribute(End::Tab),
    Place::UnquotedAttribute(End::LineFeed),
    Place::UnquotedAttribute(End::FormFeed),
    Place::UnquotedAttribute(End::Space),
    Place::UnquotedAttribute(End::Greater),
    Place::ScriptSingle,
    Place::ScriptDouble,
    Place::StyleSingle,
    Place::StyleDouble,
    Place::ScriptBody,
    Place::StyleBody,
];

/// What stands before a text in the place.
pub fn opening_mark(place: Place) -> &'static str {
    match place {
        Place::Text => ">",
        Place::DoubleAttribute | Place::ScriptDouble | Place::StyleDouble => "\"",
        Place::SingleAttribute | Place::ScriptSingle | Place::StyleSingle => "'",
        Place::UnquotedAttribute(_) => "=",
        Place::ScriptBody => "<script>",
        Place::StyleBody => "<style>",
    }
}

fn closing_mark(place: Place) -> &'static str {
    match place {
        Place::Text => "<",
        Place::DoubleAttribute | Place::ScriptDouble | Place::StyleDouble => "\"",
        Place::SingleAttribute | Place::ScriptSingle | Place::StyleSingle => "'",
        Place::UnquotedAttribute(End::Tab) => "\t",
        Place::UnquotedAttribute(End::LineFeed) => "\n",
        Place::UnquotedAttribute(End::FormFeed) => "\u{c}",
        Place::UnquotedAttribute(End::Space) => " ",
        Place::UnquotedAttribute(End::Greater) => ">",
        Place::ScriptBody => "</script>",
        Place::StyleBody => "</style>",
    }
}

/// Whether the text can stand in the place: no unquoted value is empty.
pub fn stands_in(place: Place, text: &str) -> bool {
    match place {
        Place::UnquotedAttribute(_) => !text.is_empty(),
        _ => true,
    }
}

/// What an encoder made, between the marks of the place.
pub fn enclosed(alloc: Global, place: Place, made: &str) -> Result<String, AllocError> {
    let mut whole = String::from_str(alloc, opening_mark(place))?;
    whole.push_str(made)?;
    whole.push_str(closing_mark(place))?;
    Ok(whole)
}
