//! Tables of entities: which rows make one, and the value of a name.
#![tactic(auto)]

ghost use Rattle.std.specs.Prelude.{◌≡◌, ◌&&◌, ◌==◌, List, None, IsFalse, IsTrue, length, not, take};
ghost use Rattle.std.specs.Cmp.Lexicographic.{slice_cmp};
ghost use Rattle.std.specs.Option.{option_map};
ghost use Rattle.std.specs.Ordering.{nat_cmp};
ghost use Rattle.hesc_specs.specs.References.Rows.{Row, value_of};
ghost use Rattle.hesc_specs.specs.References.TableFaults.{is_alphanumeric, is_table};
ghost use Rattle.hesc_table.specs.Growth.{grow_by};
ghost use Rattle.hesc_table.specs.Index.{is_index_of};
ghost use Rattle.hesc_table.specs.Rows.{are_near, rows_in};

pub mod entities;
pub mod growth;
pub mod index;
mod row_faults;

use crate::entities::NAMED_ENTITIES;
use crate::growth::{Growth, growth_of};
use crate::index::NameIndex;
use crate::index::built_in::{SEEDS, SLOTS};
use crate::row_faults::{COMMON_ENTITIES, fault_of_row, first_value, is_alphanumeric};
use hesc_specs::TableFault;
use std::cmp::Ordering;

// A constant would be written out where it is used, and each of its references proved there.
static BUILT_IN: [(&[u8], &str); 77] = NAMED_ENTITIES;

/// A table of entities: rows of a name and its value, by strictly rising names of ASCII letters and
/// digits, that have the six common names with their values.
#[derive(Clone, Copy)]
pub struct EntityTable<'a> {
    rows: &'a [(&'a [u8], &'a str)],
    growth: Growth,
    index: NameIndex<'a>,
    // Whether the index gives each name its row: a name that it gives another row is then in none.
    is_complete: bool,
    ghost good: { IsTrue (is_table (rows_in rows.now)) },
    ghost grows: { IsTrue (grow_by growth (rows_in rows.now)) },
    ghost complete: { IsTrue (is_index_of is_complete index (rows_in rows.now)) },
}

impl EntityTable<'static> {
    ghost use Rattle.hesc_table.specs.NamedRows.{named_rows};
    ghost use Rattle.hesc_table.specs.Table.{knows_its_index, rows_of};

    /// The table of [`NAMED_ENTITIES`].
    ///
    /// `built_in().get(b"AElig")` is `Some("\u{C6}")`.
    pub fn built_in() -> EntityTable<'static>
        ensures rows { rows_of result ≡ named_rows }
        ensures index { IsTrue (knows_its_index result) }
    {
        EntityTable {
            rows: &BUILT_IN,
            growth: Growth::Never,
            index: NameIndex::of(&SEEDS, &SLOTS),
            is_complete: true,
        }
    }
}

impl<'a> EntityTable<'a> {
    ghost use Rattle.std.specs.Prelude.{IfOk, IfSome, IsNone, None, Some};
    ghost use Rattle.std.specs.Result.{result_err};
    ghost use Rattle.hesc_specs.specs.References.TableFaults.{first_fault};
    ghost use Rattle.hesc_table.specs.Index.{candidate_of, is_whole, seeds_of, slots_of};
    ghost use Rattle.hesc_table.specs.Table.{
      IsOtherRow,
      has_whole_index,
      index_of,
      knows_its_index,
      rows_of,
    };

    /// The table of these rows, or their first fault: the rows are checked in order, at each row
    /// the faults in the order of `TableFault`, and at last whether a common name is missing.
    ///
    /// Of the one row `(b"amp", "&")` the fault is `MissingCommon(1)`.
    pub fn new(rows: &'a [(&'a [u8], &'a str)]) -> Result<EntityTable<'a>, TableFault>
        ensures made { IfOk result (λ table. rows_of table ≡ rows_in rows.now) }
        ensures fault { result_err result ≡ first_fault (rows_in rows.now) }
    {
        for i in 0..rows.len() {
            if let Some(fault) = fault_of_row(rows, i) {
                return Err(fault);
            }
        }
        for k in 0..COMMON_ENTITIES.len() {
            if first_value(rows, COMMON_ENTITIES[k].0).is_none() {
                return Err(TableFault::MissingCommon(k));
            }
        }
        let table = EntityTable {
            rows,
            growth: growth_of(rows),
            index: NameIndex::none(),
            is_complete: false,
        };
        Ok(table)
    }

    /// The table of rows that are shown to have no fault: nothing is checked when this is called.
    ///
    /// The crate `uses` has a caller, `table`: with the row `(b"hearts", "\u{2665}")` among the common
    /// ones, `I &hearts; &lt;b&gt;` is decoded to `I \u{2665} <b>`.
    pub fn of(rows: &'a [(&'a [u8], &'a str)]) -> EntityTable<'a>
        requires { IsTrue (is_table (rows_in rows.now)) }
        ensures { rows_of result ≡ rows_in rows.now }
    {
        EntityTable {
            rows,
            growth: Growth::Unknown,
            index: NameIndex::none(),
            is_complete: false,
        }
    }

    /// The same of rows whose values are also shown to be at most a fifth longer than their
    /// references, as all of HTML's are: decoding then asks for its room without counting first.
    ///
    /// Of the six names that every table has, `get(b"nbsp")` is `Some("\u{A0}")`, and `get(b"copy")` is
    /// `None`.
    pub fn of_near(rows: &'a [(&'a [u8], &'a str)]) -> EntityTable<'a>
        requires table { IsTrue (is_table (rows_in rows.now)) }
        requires near { IsTrue (are_near (rows_in rows.now)) }
        ensures { rows_of result ≡ rows_in rows.now }
    {
        EntityTable::of_near_indexed(rows, NameIndex::none())
    }

    /// The same with an index of the rows' names, by which a name is found at the first row that is
    /// looked at. Nothing is asked of the index: a wrong one costs time alone.
    ///
    /// Of the six names that every table has, `get(b"nbsp")` is `Some("\u{A0}")` by any index.
    pub fn of_near_indexed(rows: &'a [(&'a [u8], &'a str)], index: NameIndex<'a>) -> EntityTable<'a>
        requires table { IsTrue (is_table (rows_in rows.now)) }
        requires near { IsTrue (are_near (rows_in rows.now)) }
        ensures rows { rows_of result ≡ rows_in rows.now }
        ensures index { index_of result ≡ index.entry }
    {
        EntityTable {
            rows,
            growth: Growth::AtMostAFifth,
            index,
            is_complete: false,
        }
    }

    /// The same with an index that is shown to give each row for its name: a name that the row it gives
    /// does not have is then looked for nowhere else.
    ///
    /// `html_entities()` of the crate `html_entities` is made so: its `get(b"hearts")` is
    /// `Some("\u{2665}")`.
    pub fn of_near_wholly_indexed(
        rows: &'a [(&'a [u8], &'a str)],
        index: NameIndex<'a>,
    ) -> EntityTable<'a>
        requires table { IsTrue (is_table (rows_in rows.now)) }
        requires near { IsTrue (are_near (rows_in rows.now)) }
        requires whole { IsTrue (is_whole index (rows_in rows.now)) }
        ensures rows { rows_of result ≡ rows_in rows.now }
        ensures index { IsTrue (knows_its_index result) }
    {
        let mut table = EntityTable::of_near_indexed(rows, index);
        table.is_complete = true;
        table
    }

    /// The value of exactly this name, found by the index of the names or else by halving the rows.
    ///
    /// Of the built-in table, `get(b"amp")` is `Some("&")`, and `get(b"copy")` is `None`.
    pub fn get(&self, name: &[u8]) -> Option<&'a str>
        ensures { option_map (λ value. value.now) result ≡ value_of (rows_of self.now) name.now }
    {
        match self.get_by_index(name) {
            Some(value) => Some(value),
            None if self.is_complete => None,
            // What an index misses is mostly no name.
            None if !self.index.is_empty() && !may_be_name(name) => None,
            None => self.get_by_halving(name),
        }
    }

    // The value of exactly this name, if the index gives its row.
    #[inline(always)]
    fn get_by_index(&self, name: &[u8]) -> Option<&'a str>
        ensures found { IfSome result (λ value. value_of (rows_of self.now) name.now ≡ Some value.now) }
        ensures missed { IsNone result → IsTrue self.now.is_complete → value_of (rows_of self.now) name.now ≡ None }
        ensures other { IsNone result → IsOtherRow (candidate_of (seeds_of self.now.index) (slots_of self.now.index) name.now)
            (rows_of self.now) name.now }
    {
        let candidate = self.index.candidate(name)?;
        if candidate >= self.rows.len() {
            return None;
        }
        if self.rows[candidate].0 == name {
            return Some(self.rows[candidate].1);
        }
        None
    }

    // The value of exactly this name, found by halving the rows.
    fn get_by_halving(&self, name: &[u8]) -> Option<&'a str>
        ensures { option_map (λ value. value.now) result ≡ value_of (rows_of self.now) name.now }
    {
        let mut low = 0;
        let mut high = self.rows.len();
        'halving: while low < high {
            let middle = low + (high - low) / 2;
            match compare_names(self.rows[middle].0, name) {
                Ordering::Less => low = middle + 1,
                Ordering::Greater => high = middle,
                Ordering::Equal => return Some(self.rows[middle].1),
            }
        }
        None
    }

    /// Whether the index gives each name its row, so that a name is found at the first row that is
    /// looked at. All rows are gone through: this is for a test of an index.
    ///
    /// Of the built-in table it is `true`, and of a table without an index `false`.
    pub fn has_whole_index(&self) -> bool
        ensures { result ≡ has_whole_index self.now }
    {
        let mut rest = self.rows;
        let mut number: usize = 0;
        'rows: while let [row, others @ ..] = rest {
            if self.index.candidate(row.0) != Some(number) {
                return false;
            }
            number += 1;
            rest = others;
        }
        true
    }

    /// How much longer than its source a decoded text may be.
    ///
    /// Of the built-in table it is `Growth::Never`.
    pub fn growth(&self) -> Growth
        ensures { IsTrue (grow_by result (rows_of self.now)) }
    {
        self.growth
    }

    /// The rows that the table was made of, in order.
    ///
    /// Of the built-in table they are 77, of which the first is `(b"AElig", "\u{C6}")`.
    pub fn rows(&self) -> &'a [(&'a [u8], &'a str)]
        ensures { rows_in result.now ≡ rows_of self.now }
    {
        self.rows
    }
}

// Whether the first bytes, eight at most, may be those of a name. What stands between a bare `&` and
// the next `;` mostly has a space or a mark among them.
#[inline(always)]
fn may_be_name(name: &[u8]) -> bool
    ensures front { result ≡ (not (length name.now == 0) && is_alphanumeric (take 8 name.now)) }
    ensures missed { IsFalse result → (rows : List Row) → IsTrue (is_table rows) → value_of rows name.now ≡ None }
{
    let front = &name[..name.len().min(8)];
    !front.is_empty() && is_alphanumeric(front)
}

// The order of two names, most of which differ in their first bytes.
#[inline(always)]
fn compare_names(name: &[u8], other: &[u8]) -> Ordering
    ensures { result ≡ slice_cmp nat_cmp name.now other.now }
{
    match (name, other) {
        ([first, ..], [second, ..]) if first != second => first.cmp(second),
        _ => name.cmp(other),
    }
}
