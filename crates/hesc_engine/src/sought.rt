//! The bytes that a rule looks for, and the search for the next of them by what is known of the
//! bytes ahead.
ghost use Rattle.std.specs.Prelude.{◌≡◌, ◌≤◌, ◌<◌, ℕ, Bool, false, length, slice_index, IfErr, IfNone, IfOk, IfSome};
ghost use Rattle.hesc_specs.specs.Text.FirstPlace.{IsFirstPlace};
ghost use Rattle.hesc_scan.specs.Blocks.{IsFirstBlock};
ghost use Rattle.hesc_engine.specs.Ahead.{IsAhead};
ghost use Rattle.hesc_engine.specs.Sought.{in_sought};

use crate::ahead::Ahead;
use hesc_scan::byte_block::first_byte_block;
use hesc_scan::scan::first_block;
use hesc_sinks::ascii_texts::AsciiTexts;
use hesc_specs::Class;

/// The bytes that a rule looks for: those of a class, or one byte.
#[derive(Clone, Copy)]
pub enum Sought {
    InClass(Class),
    Byte(u8),
}

/// What a rule seeks, and its table, `None` where no sought byte always becomes the same.
#[derive(Clone, Copy)]
pub struct Seek {
    pub sought: Sought,
    pub texts: Option<AsciiTexts>,
}

/// The least place at or after `from` whose byte is sought, or `None` where there is none. The bytes
/// are searched after those that are known.
#[inline(always)]
pub(crate) fn first_hit(sought: Sought, text: &str, from: usize, ahead: &mut Ahead) -> Option<usize>
    requires within { from ≤ length text.now }
    requires ahead { IsAhead (in_sought sought) text.now ahead.old }
    ensures none { IfNone result (IsFirstPlace (in_sought sought) text.now from (length text.now)) }
    ensures first { IfSome result (IsFirstPlace (in_sought sought) text.now from) }
    ensures inside { IfSome result (λ place. place < length text.now) }
    ensures ahead { IsAhead (in_sought sought) text.now ahead.new }
{
    let bytes = text.as_bytes();
    let reached = match known_hit(text, from, *ahead) {
        Ok(place) => return Some(place),
        Err(reached) => reached,
    };
    if reached == bytes.len() {
        return None;
    }
    let (start, hits) = first_sought(sought, bytes, reached);
    *ahead = Ahead { start, hits };
    if hits == 0 {
        return None;
    }
    Some(start + hits.trailing_zeros() as usize)
}

// The mask of the first bytes at or after `from` among which one is sought, and where they begin.
#[inline(always)]
fn first_sought(sought: Sought, bytes: &[u8], from: usize) -> (usize, u64)
    requires { from ≤ length bytes.now }
    ensures { IsFirstBlock (in_sought sought) bytes.now from result.0 result.1 }
{
    match sought {
        Sought::InClass(class) => first_block(class, bytes, from),
        Sought::Byte(byte) => first_byte_block(byte, bytes, from),
    }
}

// The place of the first byte at or after `from` that the mask shows, whatever bytes it tells of, or
// the place up to which it shows none.
#[inline(always)]
fn known_hit(text: &str, from: usize, ahead: Ahead) -> Result<usize, usize>
    requires { from ≤ length text.now }
    ensures first { IfOk result (λ place. (test : ℕ → Bool) → IsAhead test text.now ahead
        → IsFirstPlace test text.now from place × (place < length text.now)) }
    ensures reached { IfErr result (λ reached. (from ≤ reached) × (reached ≤ length text.now)) }
    ensures none { IfErr result (λ reached. (test : ℕ → Bool) → IsAhead test text.now ahead
        → (k : ℕ) → from ≤ k → k < reached → test (slice_index text.now k) ≡ false) }
{
    if from < ahead.start || from - ahead.start >= 32 {
        return Err(from);
    }
    let left = ahead.hits >> (from - ahead.start);
    if left == 0 {
        return Err(text.len().min(ahead.start + 32));
    }
    Ok(from + left.trailing_zeros() as usize)
}
