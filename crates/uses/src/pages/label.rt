//! A caller: a style that shows a label, whose contract hands the promise of places on to its own
//! callers.
ghost use Rattle.std.specs.Prelude.{◌≡◌, IfOk};
ghost use Rattle.std.specs.String.{string_bytes};
ghost use Rattle.uses.specs.Pages.Labels.{LabelComesBack, label_text};

use hesc_places::{Place, PlaceFault, append_enclosed};
use html_escape::Encoder;
use std::alloc::Global;

/// `<style>main::before{content:"LABEL"}</style>`. A browser shows the label, whatever it holds and
/// whatever follows the style, with U+FFFD for NUL.
pub fn label_style(alloc: Global, label: &str) -> Result<String, PlaceFault>
    ensures text { IfOk result (λ style. string_bytes style ≡ label_text label.now) }
    ensures label { IfOk result (λ style. LabelComesBack label.now (string_bytes style)) }
{
    let mut style = String::from_str(alloc, "<style>main::before{content:")?;
    append_enclosed(
        &mut style,
        Encoder::StyleDoubleQuoted,
        Place::StyleDouble,
        label,
    )?;
    style.push_str("}</style>")?;
    Ok(style)
}
