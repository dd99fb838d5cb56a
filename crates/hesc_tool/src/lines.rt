//! The texts of a page or a form in lines: each after its length.
ghost use Rattle.std.specs.Prelude.{◌≡◌, ◌++◌, map, IfOk, OnOk};
ghost use Rattle.std.specs.List.{flat_map};
ghost use Rattle.std.specs.Option.{option_map};
ghost use Rattle.hesc_places.specs.Pages.AttributeReadings.{entry};
ghost use Rattle.hesc_places.specs.Pages.FormReadings.{form_reading};
ghost use Rattle.hesc_places.specs.Pages.PageReadings.{page_reading};
ghost use Rattle.hesc_tool.specs.Lines.{attribute_line, form_lines, page_lines, value_line};

use hesc_commands::quoting_letter;
use hesc_places::{Quoting, read_form, read_page};
use std::alloc::{AllocError, Allocator};

/// The lines of the page that is read from the front of the bytes, `None` exactly where there is no
/// reading.
pub fn read_lines<A: Allocator + Clone>(
    alloc: A,
    bytes: &[u8],
) -> Result<Option<Vec<u8, A>>, AllocError>
    ensures { IfOk result (λ found.
        option_map (λ lines. lines.items) found ≡ option_map page_lines (page_reading bytes.now)) }
{
    let Some(page) = read_page(alloc.clone()?, bytes)? else {
        return Ok(None);
    };
    let mut output = Vec::new(alloc.clone()?);
    push_line(&mut output, alloc.clone()?, page.first.as_slice())?;
    push_line(&mut output, alloc.clone()?, page.second.as_slice())?;
    push_line(&mut output, alloc, page.third.as_slice())?;
    Ok(Some(output))
}

/// The lines of the form that is read from the front of the bytes, `None` exactly where there is no
/// reading.
pub fn read_form_lines<A: Allocator + Clone>(
    alloc: A,
    bytes: &[u8],
) -> Result<Option<Vec<u8, A>>, AllocError>
    ensures { IfOk result (λ found.
        option_map (λ lines. lines.items) found ≡ option_map form_lines (form_reading bytes.now)) }
{
    let Some(form) = read_form(alloc.clone()?, bytes)? else {
        return Ok(None);
    };
    let mut output = Vec::new(alloc.clone()?);
    push_attributes(&mut output, &alloc, form.attributes.as_slice())?;
    push_line(&mut output, alloc, form.script.as_slice())?;
    Ok(Some(output))
}

// Appends a line for each attribute.
fn push_attributes<A: Allocator + Clone>(
    output: &mut Vec<u8, A>,
    alloc: &A,
    attributes: &[(Vec<u8, A>, Quoting, Vec<u8, A>)],
) -> Result<(), AllocError>
    ensures { OnOk result (output.new.items ≡ output.old.items ++ flat_map attribute_line
        (map (λ a. entry a.0.items a.1 a.2.items) attributes.now)) }
{
    let mut rest = attributes;
    'attributes: while let [(name, quoting, value), others @ ..] = rest {
        push_attribute(
            output,
            alloc.clone()?,
            name.as_slice(),
            *quoting,
            value.as_slice(),
        )?;
        rest = others;
    }
    Ok(())
}

// Appends the name of an attribute, the letter of its quoting, and its value as a line.
fn push_attribute<A: Allocator>(
    output: &mut Vec<u8, A>,
    alloc: A,
    name: &[u8],
    quoting: Quoting,
    value: &[u8],
) -> Result<(), AllocError>
    ensures { OnOk result (output.new.items
        ≡ output.old.items ++ attribute_line (entry name.now quoting value.now)) }
{
    output.extend_from_slice(name)?;
    output.push(b' ')?;
    output.push(quoting_letter(quoting))?;
    output.push(b' ')?;
    push_line(output, alloc, value)
}

// Appends the length of the value in decimal, a space, the value and a line feed.
fn push_line<A: Allocator>(
    output: &mut Vec<u8, A>,
    alloc: A,
    value: &[u8],
) -> Result<(), AllocError>
    ensures { OnOk result (output.new.items ≡ output.old.items ++ value_line value.now) }
{
    let length = value.len().to_string(alloc)?;
    output.extend_from_slice(length.as_bytes())?;
    output.push(b' ')?;
    output.extend_from_slice(value)?;
    output.push(b'\n')?;
    Ok(())
}
