//! An index from names to the rows that may have them.
ghost use Rattle.std.specs.Prelude.{◌≡◌, ◌<◌, ◌==◌, [], length};
ghost use Rattle.hesc_table.specs.Index.{candidate_of, ends_of, hash_of, place_of, seeds_of, slots_of};

pub(crate) mod built_in;

/// 2^64 divided by the golden ratio, which scatters the numbers that it multiplies.
const SCATTER: u64 = 0x9E37_79B9_7F4A_7C15;

/// For each name the one row that may have it: a table with an index looks at this row before it
/// halves its rows.
///
/// It is made beforehand, by hash and displace (Belazzougui, Botelho, Dietzfelbinger: Hash, displace,
/// and compress, 2009): the hash of a name chooses a seed, and the seed puts the names that choose it
/// into slots of their own. Nothing is asked of an index, since the row's name is compared: a wrong one
/// costs time alone. Those of the built-in table and of `html_entities` are shown to give each name its
/// row, so a name that they give another row is in none.
#[derive(Clone, Copy)]
pub struct NameIndex<'a> {
    seeds: &'a [u16],
    slots: &'a [u16],
}

impl<'a> NameIndex<'a> {
    /// The index of these seeds, and of the numbers of rows in these slots. Names are spread over all
    /// of them where both counts are powers of two, 65,536 at most. `index_of` in
    /// `tools/named_references.py` makes both from names.
    ///
    /// By `NameIndex::of(&[1], &[3])` each name is looked for in the fourth row first, and a table has
    /// the values that it has without it.
    pub const fn of(seeds: &'a [u16], slots: &'a [u16]) -> NameIndex<'a>
        ensures seeds { seeds_of result ≡ seeds.now }
        ensures slots { slots_of result ≡ slots.now }
    {
        NameIndex { seeds, slots }
    }

    /// The index of no names.
    ///
    /// By it a table finds each name by halving its rows: of the six names that every table has,
    /// `get(b"nbsp")` is `Some("\u{A0}")`.
    pub const fn none() -> NameIndex<'static>
        ensures { slots_of result ≡ [] }
    {
        NameIndex {
            seeds: &[],
            slots: &[],
        }
    }

    /// Whether it gives a row for any name.
    #[inline(always)]
    pub(crate) fn is_empty(&self) -> bool
        ensures { result ≡ (length (slots_of self.now) == 0) }
    {
        self.slots.is_empty()
    }

    /// The row that may have a name: a name of fewer than two bytes has none.
    #[inline(always)]
    pub(crate) fn candidate(&self, name: &[u8]) -> Option<usize>
        ensures { result ≡ candidate_of (seeds_of self.now) (slots_of self.now) name.now }
    {
        if self.seeds.is_empty() || self.slots.is_empty() {
            return None;
        }
        let hash = hash_of(name)?;
        let seed = place(self.seeds, hash);
        Some(place(self.slots, hash.wrapping_mul(seed as u64)) as usize)
    }
}

// The entry that a hash falls on.
#[inline(always)]
fn place(entries: &[u16], hash: u64) -> u16
    requires { 0 < length entries.now }
    ensures { result ≡ place_of entries.now hash }
{
    entries[(hash >> 48) as usize & (entries.len() - 1)]
}

// A number of the first and the last bytes of a name and of its length, which tell apart all names of
// HTML. A name of one byte has none.
#[inline(always)]
fn hash_of(name: &[u8]) -> Option<u64>
    ensures { result ≡ hash_of name.now }
{
    let (first, last) = ends(name)?;
    let ends = first.wrapping_add(last.wrapping_mul(SCATTER));
    Some(ends.wrapping_add(name.len() as u64).wrapping_mul(SCATTER))
}

// The first and the last eight bytes, or four, or two, which may overlap.
#[inline(always)]
fn ends(name: &[u8]) -> Option<(u64, u64)>
    ensures { result ≡ ends_of name.now }
{
    if let (Some(first), Some(last)) = (name.first_chunk::<8>(), name.last_chunk::<8>()) {
        return Some((u64::from_le_bytes(*first), u64::from_le_bytes(*last)));
    }
    if let (Some(first), Some(last)) = (name.first_chunk::<4>(), name.last_chunk::<4>()) {
        return Some((
            u32::from_le_bytes(*first) as u64,
            u32::from_le_bytes(*last) as u64,
        ));
    }
    if let (Some(first), Some(last)) = (name.first_chunk::<2>(), name.last_chunk::<2>()) {
        return Some((
            u16::from_le_bytes(*first) as u64,
            u16::from_le_bytes(*last) as u64,
        ));
    }
    None
}
