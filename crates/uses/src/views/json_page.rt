//! A caller of views: the page of data that comes as JSON. The contract says of which template it is a page.
ghost use Rattle.std.specs.Prelude.{IfSome, OnOk};
ghost use Rattle.std.specs.String.{string_bytes};
ghost use Rattle.json.specs.Json.{document};
ghost use Rattle.html_view.specs.Words.{AddsPage, datum_of_json, unrolled_by};

use html_view::{DataFault, Value, View};
use json::Scratch;
use std::alloc::Global;

/// Why there is no page of a text.
#[derive(Clone, Copy, Debug, PartialEq, Eq)]
pub enum JsonPageFault {
    /// The text is not JSON, or a key of an object comes twice in it.
    Json(json::Error),
    /// The data has no page.
    Data(DataFault),
}

/// Appends the page of a JSON text. Behind a page it makes a page of the joined parts.
pub fn append_json_page<'t>(
    alloc: Global,
    output: &mut String,
    view: &View<'t>,
    text: &'t str,
) -> Result<(), JsonPageFault>
    ensures { OnOk result (IfSome (document text.now) (λ value.
        AddsPage (unrolled_by view.now (datum_of_json value))
        (string_bytes output.old) (string_bytes output.new))) }
{
    let mut scratch = Scratch::new(alloc);
    let json = match json::Value::parse_strict(alloc, text, &mut scratch) {
        Ok(json) => json,
        Err(error) => return Err(JsonPageFault::Json(error)),
    };
    match view.append(output, Value::of_json(&json)) {
        Ok(()) => Ok(()),
        Err(fault) => Err(JsonPageFault::Data(fault)),
    }
}
