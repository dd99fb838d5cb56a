//! The reader of pages: what stands in a page, and where it ends.
ghost use Rattle.std.specs.Prelude.{◌≡◌, map, IfOk};
ghost use Rattle.std.specs.Option.{option_map};
ghost use Rattle.hesc_places.specs.Pages.AttributeReadings.{entry};
ghost use Rattle.hesc_places.specs.Pages.PageReadings.{page_found, page_of, page_reading};

use crate::markup::form_reader::read_form;
use crate::markup::types::ReadAttribute;
use std::alloc::{AllocError, Allocator, Global};

/// What stands in a page, and where it ends.
#[derive(Debug, Drop, PartialEq, Eq)]
pub struct Page<A: Allocator = Global> {
    /// The value of the tag's first attribute.
    pub first: Vec<u8, A>,
    /// The value of the tag's second attribute.
    pub second: Vec<u8, A>,
    /// The string that the script hands to `alert`.
    pub third: Vec<u8, A>,
    /// The position after the script's end tag.
    pub end: usize,
}

/// Reads a page from the front of the bytes: an input's tag with exactly two attributes, of any
/// names and quoting, and a script that hands one string to `alert`. There is `None` exactly where
/// there is no reading, and `AllocError` where memory, or a copy of `alloc`, is refused. The bytes
/// need be no UTF-8.
///
/// Of the page of `a`, `b` and `c` it has these three; of `abc` there is none.
#[tactic(auto, unfolding(crate::specs::Pages::PageReadings::page_reading))]
pub fn read_page<A: Allocator + Clone>(
    alloc: A,
    bytes: &[u8],
) -> Result<Option<Page<A>>, AllocError>
    ensures { IfOk result (λ found.
        option_map (λ p. page_found p.first.items p.second.items p.third.items p.end) found
        ≡ page_reading bytes.now) }
{
    let Some(form) = read_form(alloc, bytes)? else {
        return Ok(None);
    };
    Ok(page_of(form.attributes, form.script, form.end))
}

// The page with these attributes, if they are two.
fn page_of<A: Allocator>(
    mut attributes: Vec<ReadAttribute<A>, A>,
    third: Vec<u8, A>,
    end: usize,
) -> Option<Page<A>>
    ensures { option_map (λ p. page_found p.first.items p.second.items p.third.items p.end) result
        ≡ page_of (map (λ a. entry a.0.items a.1 a.2.items) attributes.items)
        third.items end }
{
    if attributes.len() != 2 {
        return None;
    }
    let (Some((_, _, second)), Some((_, _, first))) = (attributes.pop(), attributes.pop()) else {
        return None;
    };
    Some(Page {
        first,
        second,
        third,
        end,
    })
}
