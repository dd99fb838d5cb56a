//! How much longer than its source a text may be that is decoded by a table.
ghost use Rattle.std.specs.Prelude.{◌≡◌, IsTrue};
ghost use Rattle.hesc_specs.specs.References.Rows.{are_short, is_short};
ghost use Rattle.hesc_table.specs.Growth.{grow_by};
ghost use Rattle.hesc_table.specs.Rows.{are_near, is_near, rows_in};

/// What is known of the growth.
#[derive(Clone, Copy)]
pub enum Growth {
    /// No value is empty or longer than its reference.
    Never,
    /// No value is empty, or more than a fifth longer than its reference.
    AtMostAFifth,
    Unknown,
}

/// The growth by these rows.
pub fn growth_of(rows: &[(&[u8], &str)]) -> Growth
    ensures { IsTrue (grow_by result (rows_in rows.now)) }
{
    if are_short(rows) {
        Growth::Never
    } else if are_near(rows) {
        Growth::AtMostAFifth
    } else {
        Growth::Unknown
    }
}

// Whether no value is empty or longer than its reference.
fn are_short(rows: &[(&[u8], &str)]) -> bool
    ensures { result ≡ are_short (rows_in rows.now) }
{
    for row in rows {
        if !is_short(row.0, row.1) {
            return false;
        }
    }
    true
}

// The reference is `&`, the name and `;`.
fn is_short(name: &[u8], value: &str) -> bool
    ensures { result ≡ is_short (name.now, value.now) }
{
    !value.is_empty() && value.len() <= name.len() + 2
}

// Whether no value is empty, or more than a fifth longer than its reference.
fn are_near(rows: &[(&[u8], &str)]) -> bool
    ensures { result ≡ are_near (rows_in rows.now) }
{
    for row in rows {
        if !is_near(row.0, row.1) {
            return false;
        }
    }
    true
}

// Beyond the reference the value has a fifth of its bytes.
fn is_near(name: &[u8], value: &str) -> bool
    ensures { result ≡ is_near (name.now, value.now) }
{
    let reference = name.len() + 2;
    !value.is_empty() && (value.len() <= reference || value.len() - reference <= reference / 5)
}
