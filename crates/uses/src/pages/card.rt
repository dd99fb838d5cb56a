//! A caller: a card whose contract hands the promise of places on to its own callers.
ghost use Rattle.std.specs.Prelude.{◌≡◌, IfOk};
ghost use Rattle.std.specs.String.{string_bytes};
ghost use Rattle.uses.specs.Pages.Cards.{TitleComesBack, card_text};

use hesc_places::{Place, PlaceFault, append_enclosed};
use html_escape::{Encoder, append};
use std::alloc::{AllocError, Global};

/// `<figure title="TITLE"><b>TEXT</b></figure>`. A browser reads the title, whatever it holds and
/// whatever follows the card, as it was given.
pub fn card(alloc: Global, title: &str, text: &str) -> Result<String, PlaceFault>
    ensures text { IfOk result (λ card. string_bytes card ≡ card_text title.now text.now) }
    ensures title { IfOk result (λ card. TitleComesBack title.now (string_bytes card)) }
{
    let mut card = String::from_str(alloc, "<figure title=")?;
    append_enclosed(
        &mut card,
        Encoder::DoubleQuotedAttribute,
        Place::DoubleAttribute,
        title,
    )?;
    card.push_str("><b>")?;
    append(&mut card, &Encoder::Text, text)?;
    card.push_str("</b></figure>")?;
    Ok(card)
}
