//! A caller of templates: a list of prices, by a template for its head, one for a row and one for its
//! foot. No title, name or price can change the list's structure, and the contract says so.
ghost use Rattle.std.specs.Prelude.{◌≡◌, IfOk, map};
ghost use Rattle.std.specs.String.{string_bytes};
ghost use Rattle.html_template.specs.TemplatePieces.{pieces_of};
ghost use Rattle.html_template.specs.Templates.{part_of};
ghost use Rattle.uses.specs.Templates.PriceLists.{IsPriceList, foot_parts, head_parts, row_parts};

use html_template::{FillFault, Part, Template, TemplateFault, laws};
use std::alloc::Global;

/// What is offered, and for how much.
#[derive(Clone, Copy)]
pub struct Item<'i> {
    pub name: &'i str,
    pub price: &'i str,
}

/// The templates of the list, which are made once.
#[derive(Drop)]
pub struct ListTemplates {
    head: Template<'static>,
    row: Template<'static>,
    foot: Template<'static>,
    ghost head_is: { map part_of (pieces_of head) ≡ head_parts },
    ghost row_is: { map part_of (pieces_of row) ≡ row_parts },
    ghost foot_is: { map part_of (pieces_of foot) ≡ foot_parts },
}

impl ListTemplates {
    /// Makes the templates.
    pub fn new(alloc: Global) -> Result<ListTemplates, TemplateFault> {
        let head = [
            Part::Markup("<!DOCTYPE html><title>"),
            Part::Slot,
            Part::Markup("</title><table>"),
        ];
        let row = [
            Part::Markup("<tr><td>"),
            Part::Slot,
            Part::Markup("<td data-price=\""),
            Part::Slot,
            Part::Markup("\">&#8364;</tr>"),
        ];
        let foot = [Part::Markup("</table>")];
        Ok(ListTemplates {
            head: Template::new(alloc, &head)?,
            row: Template::new(alloc, &row)?,
            foot: Template::new(alloc, &foot)?,
        })
    }

    /// The page of these items.
    pub fn page(&self, alloc: Global, title: &str, items: &[Item]) -> Result<String, FillFault>
        ensures { IfOk result (λ page. IsPriceList title.now items.now (string_bytes page)) }
    {
        laws::pages_law();
        let mut page = String::new(alloc);
        self.head.append(&mut page, &[title])?;
        for item in items {
            self.row.append(&mut page, &[item.name, item.price])?;
        }
        self.foot.append(&mut page, &[])?;
        Ok(page)
    }
}
