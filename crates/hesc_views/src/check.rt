//! What slots and sections a view has.
ghost use Rattle.std.specs.Prelude.{◌≡◌, ◌++◌, option_map, string_bytes, OnOk};
ghost use Rattle.hesc_views.specs.Checks.{
  body_lines,
  body_sign,
  fragment_line,
  kind_word,
  lines_of,
  node_lines,
  otherwise_sign,
  place_word,
  slot_line,
  tag_line,
};

use html_template::{SlotKind, SlotPlace};
use html_urls::UrlPlace;
use html_view::{Named, Opened, Placed, PlacedNode, Times};
use std::alloc::{AllocError, Allocator};

/// Appends a line for each slot and each section of nodes, in the order of the page: of a slot its name,
/// its place and what text it takes, of a section its sign and its name. What stands where a section does
/// not comes behind a line of its own, by the sign `^`. A slot between attributes has a line as other slots, whose
/// place is `attributes`, and one for a fragment one with `fragment`.
///
/// Of `<p>`, a slot named `title` and `</p>` it is the line `title text`.
#[cycle(append)]
pub fn append_nodes<A: Allocator, B: Allocator>(
    output: &mut String<B>,
    nodes: &Vec<PlacedNode<'_, A>, A>,
) -> Result<(), AllocError>
    ensures { OnOk result
        (string_bytes output.new ≡ string_bytes output.old ++ lines_of nodes.now.items) }
{
    for node in nodes {
        append_node(output, node)?;
    }
    Ok(())
}

#[cycle(append)]
fn append_node<A: Allocator, B: Allocator>(
    output: &mut String<B>,
    node: &PlacedNode<'_, A>,
) -> Result<(), AllocError>
    ensures { OnOk result
        (string_bytes output.new ≡ string_bytes output.old ++ node_lines node.now) }
{
    match node {
        PlacedNode::Markup(_) => Ok(()),
        PlacedNode::Slot(slot) => append_slot(output, slot),
        PlacedNode::Fragment(slot) => append_fragment(output, slot),
        PlacedNode::Section(opened, body, otherwise) => {
            let sign = body_sign(opened.times, body.is_empty(), otherwise.is_empty());
            append_body(output, sign, opened, body)?;
            append_tag(output, otherwise_sign(otherwise.is_empty()), &opened.tag)?;
            append_nodes(output, otherwise)
        }
    }
}

// Appends the lines of a section where its body stands.
#[cycle(append)]
fn append_body<A: Allocator, B: Allocator>(
    output: &mut String<B>,
    sign: Option<&str>,
    opened: &Opened<'_, A>,
    body: &Vec<PlacedNode<'_, A>, A>,
) -> Result<(), AllocError>
    ensures { OnOk result (string_bytes output.new ≡ string_bytes output.old
        ++ body_lines opened.now.times opened.now.tag (option_map (λ sign. sign.now) sign.entry)
        (lines_of body.now.items)) }
{
    if opened.times == Times::Attributes {
        output.push_str(opened.tag.name)?;
        return output.push_str(" attributes\n");
    }
    append_tag(output, sign, &opened.tag)?;
    append_nodes(output, body)
}

// The sign of the tag that opens a body, by whether there is no body, and nothing that stands where it does
// not. `{{^x}}` alone has none, nor has a section that stands around others of its name for white space.
fn body_sign(times: Times, is_bodiless: bool, is_always: bool) -> Option<&'static str>
    ensures { option_map (λ sign. sign.now) result ≡ body_sign times is_bodiless is_always }
{
    match times {
        Times::Each | Times::Once => Some("#"),
        Times::If if is_bodiless && !is_always => None,
        Times::If | Times::Given => Some("?"),
        Times::Whether | Times::Attributes => None,
    }
}

// The sign of the tag that opens what stands where a body does not.
fn otherwise_sign(is_always: bool) -> Option<&'static str>
    ensures { option_map (λ sign. sign.now) result ≡ otherwise_sign is_always }
{
    if is_always { None } else { Some("^") }
}

// Appends the line of a tag of a section, if it has a sign.
fn append_tag<A: Allocator, B: Allocator>(
    output: &mut String<B>,
    sign: Option<&str>,
    tag: &Named<'_, A>,
) -> Result<(), AllocError>
    ensures { OnOk result (string_bytes output.new ≡ string_bytes output.old
        ++ tag_line (option_map (λ sign. sign.now) sign.entry) tag.now) }
{
    let Some(sign) = sign else {
        return Ok(());
    };
    output.push_str(sign)?;
    output.push_str(tag.name)?;
    output.push_str("\n")
}

fn append_slot<A: Allocator, B: Allocator>(
    output: &mut String<B>,
    slot: &Placed<'_, A>,
) -> Result<(), AllocError>
    ensures { OnOk result
        (string_bytes output.new ≡ string_bytes output.old ++ slot_line slot.now) }
{
    output.push_str(slot.asked.name)?;
    output.push_str(place_word(slot.place()))?;
    output.push_str(kind_word(slot.kind()))?;
    output.push_str("\n")
}

fn append_fragment<A: Allocator, B: Allocator>(
    output: &mut String<B>,
    slot: &Named<'_, A>,
) -> Result<(), AllocError>
    ensures { OnOk result
        (string_bytes output.new ≡ string_bytes output.old ++ fragment_line slot.now) }
{
    output.push_str(slot.name)?;
    output.push_str(" fragment\n")
}

// The word for a place, behind a blank.
fn place_word(place: SlotPlace) -> &'static str
    ensures { result.now ≡ place_word place }
{
    match place {
        SlotPlace::Text => " text",
        SlotPlace::DoubleQuoted => " double-quoted",
        SlotPlace::SingleQuoted => " single-quoted",
        SlotPlace::Unquoted => " unquoted",
        SlotPlace::ScriptSingle => " script-single",
        SlotPlace::ScriptDouble => " script-double",
        SlotPlace::StyleSingle => " style-single",
        SlotPlace::StyleDouble => " style-double",
    }
}

// The word for a part of a URL, a whole one or its beginning, for a string literal, for JSON and in a declaration, behind a blank.
fn kind_word(kind: SlotKind) -> &'static str
    ensures { result.now ≡ kind_word kind }
{
    match kind {
        SlotKind::Text => "",
        SlotKind::Link => " link",
        SlotKind::OwnPath => " own-path",
        SlotKind::Base(_) => " base",
        SlotKind::OwnBase(_) => " own-base",
        SlotKind::Literal => " literal",
        SlotKind::Json => " json",
        SlotKind::StyleValue => " style-value",
        SlotKind::UrlPart(slot) => match slot.place {
            UrlPlace::Path => " path",
            UrlPlace::OpaquePath => " opaque-path",
            UrlPlace::Query => " query",
            UrlPlace::Fragment => " fragment",
        },
    }
}
