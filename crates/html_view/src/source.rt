//! The source of a view, read into nodes.
ghost use Rattle.std.specs.Prelude.{IfOk};
ghost use Rattle.html_view.specs.Kept.{asked_nodes};
ghost use Rattle.html_view.specs.Nodes as node;
ghost use Rattle.html_view.specs.Reading.{IsSource, partials_of};

mod around;
mod blocks;
mod cursor;
mod lines;
mod reader;
pub(crate) mod sections;
mod tag;

use crate::faults::ViewFault;
use crate::source::around::{Around, MOST_LEVELS};
use crate::source::cursor::Cursor;
use crate::source::reader::Reader;
use crate::source::sections::Nodes;
use std::alloc::Allocator;

/// The nodes of a source, which may ask for each partial.
pub(crate) fn read<'a, A: Allocator + Copy>(
    alloc: A,
    source: &'a str,
    partials: &[(&str, &'a str)],
) -> Result<Nodes<'a, A>, ViewFault>
    ensures { IfOk result (λ nodes. IsSource (partials_of partials.now) source.now
        (asked_nodes nodes.items node.End)) }
{
    let mut nodes = Vec::new(alloc);
    let around = Around {
        begun: None,
        levels: MOST_LEVELS,
    };
    let reader = Reader {
        alloc,
        partials,
        given: &[],
    };
    reader.read(&mut Cursor::new(0, source), around, &mut nodes)?;
    Ok(nodes)
}
