//! The faults of rows, by which they make no table of entities.
ghost use Rattle.std.specs.Prelude.{◌≡◌, ◌<◌, ◌&&◌, Some, None, if◌then◌else◌, length, nat_le, not};
ghost use Rattle.std.specs.Option.{option_map};
ghost use Rattle.hesc_specs.specs.References.Rows.{common_rows, value_of};
ghost use Rattle.hesc_specs.specs.References.TableFaults.{is_alphanumeric, is_ascending, is_other, row_fault};
ghost use Rattle.hesc_table.specs.Rows.{rows_in};

use hesc_specs::TableFault;

/// The names that every table has, with their values.
pub const COMMON_ENTITIES: [(&[u8], &str); 6] = [
    (b"amp", "&"),
    (b"apos", "'"),
    (b"gt", ">"),
    (b"lt", "<"),
    (b"nbsp", "\u{A0}"),
    (b"quot", "\""),
];

/// The value of the first row of this name.
pub fn first_value<'v>(rows: &[(&[u8], &'v str)], name: &[u8]) -> Option<&'v str>
    ensures { option_map (λ value. value.now) result ≡ value_of (rows_in rows.now) name.now }
{
    for row in rows {
        if row.0 == name {
            return Some(row.1);
        }
    }
    None
}

/// The first of the four faults that a row can have.
pub fn fault_of_row(rows: &[(&[u8], &str)], i: usize) -> Option<TableFault>
    requires { i < length rows.now }
    ensures { result ≡ row_fault (rows_in rows.now) i }
{
    let (name, value) = rows[i];
    let is_bad = !is_alphanumeric(name);
    let is_wrong = is_wrong_common(name, value);
    first_of(i, name.is_empty(), is_bad, is_unordered(rows, i), is_wrong)
}

/// Whether each byte is an ASCII letter or digit.
pub fn is_alphanumeric(name: &[u8]) -> bool
    ensures { result ≡ is_alphanumeric name.now }
{
    name.iter().all(u8::is_ascii_alphanumeric)
}

// Whether the name of a row is not above that of the row before it.
fn is_unordered(rows: &[(&[u8], &str)], i: usize) -> bool
    requires { i < length rows.now }
    ensures { result ≡ nat_le 1 i && not (is_ascending (rows_in rows.now) i) }
{
    i > 0 && !rows[i - 1].0.cmp(rows[i].0).is_lt()
}

// Whether the name is a common one, and has another value.
fn is_wrong_common(name: &[u8], value: &str) -> bool
    ensures { result ≡ is_other (value_of common_rows name.now) value.now }
{
    match first_value(&COMMON_ENTITIES, name) {
        Some(common) => common != value,
        None => false,
    }
}

fn first_of(
    i: usize,
    is_empty: bool,
    is_bad: bool,
    is_unordered: bool,
    is_wrong: bool,
) -> Option<TableFault>
    ensures { result ≡
        (if is_empty then Some (TableFault.EmptyName i)
        else (if is_bad then Some (TableFault.BadName i)
        else (if is_unordered then Some (TableFault.NotAscending i)
        else (if is_wrong then Some (TableFault.WrongCommon i)
        else None)))) }
{
    if is_empty {
        Some(TableFault::EmptyName(i))
    } else if is_bad {
        Some(TableFault::BadName(i))
    } else if is_unordered {
        Some(TableFault::NotAscending(i))
    } else if is_wrong {
        Some(TableFault::WrongCommon(i))
    } else {
        None
    }
}
