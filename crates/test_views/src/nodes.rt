//! Nodes in a form that can be read.
use html_view::{Opened, PlacedNode, Times};
use std::alloc::{AllocError, Global};

fn word_of(times: Times) -> &'static str {
    match times {
        Times::Each => "each",
        Times::Once => "once",
        Times::If => "if",
        Times::Whether => "whether",
        Times::Given => "given",
        Times::Attributes => "attributes",
    }
}

/// Appends nodes.
#[cycle(show)]
pub fn show_nodes(
    shown: &mut String,
    nodes: &Vec<PlacedNode<'_, Global>>,
) -> Result<(), AllocError> {
    for node in nodes {
        show_node(shown, node)?;
    }
    Ok(())
}

#[cycle(show)]
fn show_node(shown: &mut String, node: &PlacedNode<'_, Global>) -> Result<(), AllocError> {
    match node {
        PlacedNode::Markup(markup) => shown.push_str(markup.as_str()),
        PlacedNode::Slot(slot) => {
            let name = slot.asked.name;
            let place = slot.place();
            write!(shown, "{{{name} {place:?}}}")
        }
        PlacedNode::Fragment(slot) => {
            let name = slot.name;
            write!(shown, "{{{name} Fragment}}")
        }
        // Its body has a section for each attribute, which pages show.
        PlacedNode::Section(opened, _, _) if opened.times == Times::Attributes => {
            let name = opened.tag.name;
            write!(shown, "{{{name} Attributes}}")
        }
        PlacedNode::Section(opened, body, others) => {
            open_section(shown, opened)?;
            show_nodes(shown, body)?;
            if !others.is_empty() {
                shown.push('|')?;
                show_nodes(shown, others)?;
            }
            shown.push(']')
        }
    }
}

fn open_section(shown: &mut String, opened: &Opened<'_, Global>) -> Result<(), AllocError> {
    let word = word_of(opened.times);
    let name = opened.tag.name;
    write!(shown, "[{word} {name}: ")
}
