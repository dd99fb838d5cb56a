//! The marks between which each place stands.
ghost use Rattle.std.specs.Prelude.{◌≡◌};
ghost use Rattle.hesc_places.specs.Places.Marks.{closing, opening};

use hesc_grammars::{End, Place};

/// The mark after which a place begins.
pub(crate) fn opening(place: Place) -> &'static str
    ensures { result.now ≡ opening place }
{
    match place {
        Place::Text => ">",
        Place::DoubleAttribute | Place::ScriptDouble | Place::StyleDouble => "\"",
        Place::SingleAttribute | Place::ScriptSingle | Place::StyleSingle => "'",
        Place::UnquotedAttribute(_) => "=",
        Place::ScriptBody => "<script>",
        Place::StyleBody => "<style>",
    }
}

/// The mark at which a place ends.
pub(crate) fn closing(place: Place) -> &'static str
    ensures { result.now ≡ closing place }
{
    match place {
        Place::Text => "<",
        Place::DoubleAttribute | Place::ScriptDouble | Place::StyleDouble => "\"",
        Place::SingleAttribute | Place::ScriptSingle | Place::StyleSingle => "'",
        Place::UnquotedAttribute(End::Tab) => "\t",
        Place::UnquotedAttribute(End::LineFeed) => "\n",
        Place::UnquotedAttribute(End::FormFeed) => "\u{c}",
        Place::UnquotedAttribute(End::Space) => " ",
        Place::UnquotedAttribute(End::Greater) => ">",
        Place::ScriptBody => "</script>",
        Place::StyleBody => "</style>",
    }
}
