//! All named character references of HTML as a table: 2,125 names, where the built-in table of
//! `html_escape` has 77.
//!
//! `decode_html_entities_with(alloc, &html_entities(), "I &hearts; you")?` is `I ♥ you`.
#![tactic(auto)]

ghost use Rattle.std.specs.Prelude.{◌≡◌, IsTrue, Some, List, ℕ, map};
ghost use Rattle.hesc_specs.specs.References.Rows.{value_of};
ghost use Rattle.hesc_table.specs.NamedRows.{named_rows};
ghost use Rattle.hesc_table.specs.Table.{knows_its_index, rows_of};
ghost use Rattle.html_entities.specs.NamedReferences.{named_references};

mod index;
mod rows;

use crate::index::{SEEDS, SLOTS};
pub use crate::rows::ROWS;
use hesc_table::EntityTable;
use hesc_table::index::NameIndex;

/// The table of [`ROWS`]. It is total: the rows are shown to make a table when this crate is
/// proved, and the index of their names to give each its row. No row is checked when a program runs.
///
/// `html_entities().get(b"hearts")` is `Some("\u{2665}")`.
pub fn html_entities() -> EntityTable<'static>
    ensures rows { rows_of result ≡ named_references }
    ensures index { IsTrue (knows_its_index result) }
{
    EntityTable::of_near_wholly_indexed(all_rows(), NameIndex::of(&SEEDS, &SLOTS))
}

// The checker follows the references of a constant one by one, and stops at 2,048 of them: so the
// proof is by hand, by induction over the rows.
fn all_rows() -> &'static [(&'static [u8], &'static str); 2125]
    ensures { map (λ row. (row.0.now, row.1.now)) result.now ≡ named_references }
{
    &ROWS
}

/// Each name of the built-in table has the same value in this one: this is its contract, and it
/// answers nothing.
///
/// For instance `AElig` is U+00C6 in both.
pub fn built_in_names_law()
    ensures { (name value : List ℕ) → value_of named_rows name ≡ Some value
        → value_of named_references name ≡ Some value }
{}
