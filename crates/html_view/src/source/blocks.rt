//! The blocks that are given to a layout.
ghost use Rattle.std.specs.Prelude.{◌≡◌, ◌++◌, ◌∷◌, [], ◌≤◌, IfErr, OnOk, length};
ghost use Rattle.html_view.specs.Cursors.{here_of};
ghost use Rattle.html_view.specs.Reading.{AddsBlocks, Skips, given_block};
ghost use Rattle.html_view.specs.declared.faults.ViewFault.TheVariants.{Memory};

use crate::faults::ViewFault;
use crate::source::around::{deeper, end};
use crate::source::cursor::{Cursor, Tag};
use crate::source::tag::Sign;
use std::alloc::Allocator;

/// A block that is given: its tag, the cursor behind it, and how many blocks are given further out.
#[derive(Clone, Copy)]
pub(crate) struct Block<'a> {
    pub(crate) tag: Tag<'a>,
    pub(crate) cursor: Cursor<'a>,
    pub(crate) outer: usize,
}

/// The block of this name that is given furthest out, and of those in one tag the first.
pub(crate) fn find_block<'a>(given: &[Block<'a>], name: &str) -> Option<Block<'a>>
    ensures { result ≡ given_block given.now name.now }
{
    for block in given {
        if block.tag.name == name {
            return Some(*block);
        }
    }
    None
}

/// Adds the blocks in the tag of a layout to those that are given further out. The cursor passes the end of
/// the tag. What else stands there means nothing.
pub(crate) fn read_blocks<'a, A: Allocator + Copy>(
    cursor: &mut Cursor<'a>,
    layout: Tag<'a>,
    levels: usize,
    given: &mut Vec<Block<'a>, A>,
) -> Result<(), ViewFault>
    ensures gives { OnOk result (AddsBlocks layout.entry (here_of cursor.old) given.old.items
        given.new.items (here_of cursor.new)) }
    ensures shorter { OnOk result (length cursor.new.rest.now ≤ length cursor.old.rest.now) }
{
    let outer = given.len();
    loop {
        let piece = cursor.next()?;
        match piece.tag {
            None => return end(None, Some(layout)),
            Some(tag) if tag.sign == Sign::End => return end(Some(tag), Some(layout)),
            Some(tag) if tag.sign.has_end() => {
                if tag.sign == Sign::Block {
                    let cursor = *cursor;
                    add_block(given, Block { tag, cursor, outer })?;
                }
                skip(cursor, tag, deeper(levels, tag)?)?;
            }
            Some(_) => {}
        }
    }
}

fn add_block<'a, A: Allocator>(
    given: &mut Vec<Block<'a>, A>,
    block: Block<'a>,
) -> Result<(), ViewFault>
    ensures given { OnOk result (given.new.items ≡ given.old.items ++ block.entry ∷ []) }
    ensures fault { IfErr result (λ fault. fault ≡ Memory) }
{
    match given.push(block) {
        Ok(()) => Ok(()),
        Err(_) => Err(ViewFault::Memory),
    }
}

/// Passes what stands up to the end of the tag that is open.
pub(crate) fn skip(cursor: &mut Cursor<'_>, begun: Tag<'_>, levels: usize) -> Result<(), ViewFault>
    ensures skips { OnOk result (Skips begun.entry (here_of cursor.old) (here_of cursor.new)) }
    ensures shorter { OnOk result (length cursor.new.rest.now ≤ length cursor.old.rest.now) }
{
    loop {
        let piece = cursor.next()?;
        match piece.tag {
            None => return end(None, Some(begun)),
            Some(tag) if tag.sign == Sign::End => return end(Some(tag), Some(begun)),
            Some(tag) if tag.sign.has_end() => skip(cursor, tag, deeper(levels, tag)?)?,
            Some(_) => {}
        }
    }
}
