//! A segment of a text: a stretch of the source, and the text after it.
ghost use Rattle.std.specs.Prelude.{◌≡◌, ◌≤◌, length, take};

use crate::found::Replacement;

/// A stretch of the source, and the text after it that stands for other bytes. Either may be empty.
#[derive(Clone, Copy)]
pub struct Segment<'t> {
    /// The byte of the source at which the stretch starts.
    pub start: usize,
    /// The stretch and all that follows it in the source: a copy of more than the stretch may be
    /// cheaper than one of it alone.
    pub rest: &'t [u8],
    /// The stretch.
    pub kept: &'t str,
    /// The text after it.
    pub new: Replacement<'t>,
    pub ghost within: { length kept.now ≤ length rest.now },
    pub ghost begins: { take (length kept.now) rest.now ≡ kept.now },
}
