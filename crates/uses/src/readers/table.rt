//! A caller: references decoded by a table of one's own. The rows are shown to make a table when
//! the crate is proved, by computation, so that nothing is checked when it runs.
ghost use Rattle.std.specs.Prelude.{◌≡◌, IfOk};
ghost use Rattle.std.specs.Cow.{cow_str_bytes};
ghost use Rattle.html_escape.specs.Words.{decoded, rows_of};
ghost use Rattle.uses.specs.Readers.OwnRows.{own_rows};

use html_escape::{EntityTable, decode_html_entities_with};
use std::alloc::{AllocError, Global};
use std::borrow::CowStr;

/// The six names that every table has, and one more, by rising bytes.
pub const ROWS: [(&[u8], &str); 7] = [
    (b"amp", "&"),
    (b"apos", "'"),
    (b"gt", ">"),
    (b"hearts", "\u{2665}"),
    (b"lt", "<"),
    (b"nbsp", "\u{A0}"),
    (b"quot", "\""),
];

/// The table of the rows.
pub fn own_table() -> EntityTable<'static>
    ensures { rows_of result ≡ own_rows }
{
    EntityTable::of(&ROWS)
}

/// The text with each reference replaced that the rows give a value.
pub fn decode<'t>(alloc: Global, text: &'t str) -> Result<CowStr<'t>, AllocError>
    ensures { IfOk result (λ made. cow_str_bytes made ≡ decoded own_rows text.now) }
{
    decode_html_entities_with(alloc, &own_table(), text)
}
