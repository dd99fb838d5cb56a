//! Where the names of references are looked up.
ghost use Rattle.std.specs.Prelude.{◌≡◌};
ghost use Rattle.std.specs.Option.{option_map};
ghost use Rattle.hesc_specs.specs.References.Rows.{value_of};
ghost use Rattle.hesc_table.specs.NamedRows.{named_rows};

use hesc_table::EntityTable;

/// The names of a table.
#[derive(Clone, Copy)]
pub enum Names<'t, 'a> {
    /// Those of the built-in table, which is set up for a name that is looked up alone.
    BuiltIn,
    Of(&'t EntityTable<'a>),
}

impl<'a> Names<'_, 'a> {
    ghost use Rattle.hesc_core.specs.Names.{names_rows};

    /// The value of exactly this name.
    #[inline(always)]
    pub(crate) fn value(&self, name: &[u8]) -> Option<&'a str>
        ensures { option_map (λ value. value.now) result ≡ value_of (names_rows self.now) name.now }
    {
        match self {
            Names::BuiltIn => built_in_value(name),
            Names::Of(table) => table.get(name),
        }
    }
}

// A call of its own, so that the table is set up for a name that is looked up, and not for each reference.
#[inline(never)]
fn built_in_value(name: &[u8]) -> Option<&'static str>
    ensures { option_map (λ value. value.now) result ≡ value_of named_rows name.now }
{
    EntityTable::built_in().get(name)
}
