//! A caller: a search page that gives the query back, in the field and to a script.
ghost use Rattle.std.specs.Prelude.{◌≡◌, IfOk};
ghost use Rattle.std.specs.String.{string_bytes};
ghost use Rattle.uses.specs.Pages.Searches.{search_text};

use hesc_places::{Place, PlaceFault, append_enclosed, laws, read_place};
use html_escape::Encoder;
use std::alloc::Global;

/// `<input value="QUERY"><script>show("QUERY")</script>`, whatever the query holds.
pub fn search_page(alloc: Global, query: &str) -> Result<String, PlaceFault>
    ensures { IfOk result (λ page. string_bytes page ≡ search_text query.now) }
{
    let mut page = String::from_str(alloc, "<input value=")?;
    append_enclosed(
        &mut page,
        Encoder::DoubleQuotedAttribute,
        Place::DoubleAttribute,
        query,
    )?;
    page.push_str("><script>show(")?;
    append_enclosed(
        &mut page,
        Encoder::ScriptDoubleQuoted,
        Place::ScriptDouble,
        query,
    )?;
    page.push_str(")</script>")?;
    Ok(page)
}

/// The query as a browser reads it from a script's string: it is the query.
pub fn shown(alloc: Global, query: &str) -> Result<Vec<u8>, PlaceFault>
    ensures { IfOk result (λ shown. shown.items ≡ query.now) }
{
    let mut script = String::new(alloc);
    let literal = append_enclosed(
        &mut script,
        Encoder::ScriptDoubleQuoted,
        Place::ScriptDouble,
        query,
    )?;
    let (_mark, inside) = literal.as_bytes().split_at(1);
    laws::place_law(Encoder::ScriptDoubleQuoted, Place::ScriptDouble, query, b"");
    match read_place(alloc, Place::ScriptDouble, inside)? {
        Some(reading) => Ok(reading.value),
        None => unreachable!(),
    }
}
