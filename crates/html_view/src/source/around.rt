//! What is around nodes that are read.
ghost use Rattle.std.specs.Prelude.{◌≡◌, ◌+◌, IfErr, IfOk, OnOk, Some};
ghost use Rattle.std.specs.Result.{result_err};
ghost use Rattle.html_view.specs.Reading.{Closes, end_fault};
ghost use Rattle.html_view.specs.declared.faults.TagFault.TheVariants.{TooDeep};
ghost use Rattle.html_view.specs.declared.faults.ViewFault.TheVariants as view;

use crate::faults::{TagFault, ViewFault};
use crate::source::cursor::Tag;

/// So deep sections, partials, layouts and blocks may stand in one another.
pub(crate) const MOST_LEVELS: usize = 32;

/// What is around nodes.
#[derive(Clone, Copy)]
pub(crate) struct Around<'a> {
    /// The tag that has to end. None is where the nodes are those of a whole text.
    pub(crate) begun: Option<Tag<'a>>,
    /// How many levels may still come.
    pub(crate) levels: usize,
}

impl<'a> Around<'a> {
    /// The same, one level deeper, where this tag has to end.
    pub(crate) fn within(self, tag: Tag<'a>) -> Result<Around<'a>, ViewFault>
        ensures begun { IfOk result (λ around. around.begun ≡ Some tag.entry) }
        ensures levels { IfOk result (λ around. around.levels + 1 ≡ self.entry.levels) }
        ensures fault { IfErr result (λ fault. (self.entry.levels ≡ 0)
            × (fault ≡ view.Tag tag.entry.position TooDeep)) }
    {
        let levels = deeper(self.levels, tag)?;
        Ok(Around {
            begun: Some(tag),
            levels,
        })
    }
}

/// How many levels may still come within what this tag opens.
pub(crate) fn deeper(levels: usize, tag: Tag<'_>) -> Result<usize, ViewFault>
    ensures left { IfOk result (λ left. left + 1 ≡ levels) }
    ensures fault { IfErr result (λ fault. (levels ≡ 0)
        × (fault ≡ view.Tag tag.entry.position TooDeep)) }
{
    match levels.checked_sub(1) {
        Some(levels) => Ok(levels),
        None => Err(ViewFault::Tag(tag.position, TagFault::TooDeep)),
    }
}

/// Whether what was found, a tag or the end of the text, ends what is open.
pub(crate) fn end(found: Option<Tag<'_>>, begun: Option<Tag<'_>>) -> Result<(), ViewFault>
    ensures closes { OnOk result (Closes found.entry begun.entry) }
    ensures fault { result_err result ≡ end_fault found.entry begun.entry }
{
    match (found, begun) {
        (None, None) => Ok(()),
        (None, Some(begun)) => Err(ViewFault::Tag(begun.position, TagFault::Unended)),
        (Some(end), Some(begun)) if end.name == begun.name => Ok(()),
        (Some(end), _) => Err(ViewFault::Tag(end.position, TagFault::Unopened)),
    }
}
