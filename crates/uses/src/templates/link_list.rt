//! A caller of templates: a list of what a search found, where each link has the query in it. No id, query
//! or name can change the list's structure, and the contract says so.
ghost use Rattle.std.specs.Prelude.{◌≡◌, IfOk, map};
ghost use Rattle.std.specs.String.{string_bytes};
ghost use Rattle.html_template.specs.Words.{part_of, pieces_of};
ghost use Rattle.uses.specs.Templates.LinkLists.{IsLinkList, link_parts};

use html_template::{FillFault, Part, Template, TemplateFault, laws};
use std::alloc::Global;

/// What was found, and what it is called.
#[derive(Clone, Copy)]
pub struct Found<'f> {
    pub id: &'f str,
    pub name: &'f str,
}

/// The template of a row, which is made once.
#[derive(Drop)]
pub struct LinkList {
    row: Template<'static>,
    ghost row_is: { map part_of (pieces_of row) ≡ link_parts },
}

impl LinkList {
    /// Makes the template.
    pub fn new(alloc: Global) -> Result<LinkList, TemplateFault> {
        let parts = [
            Part::Markup("<li><a href=\"/items/"),
            Part::Slot,
            Part::Markup("?q="),
            Part::Slot,
            Part::Markup("\">"),
            Part::Slot,
            Part::Markup("</a></li>"),
        ];
        let row = Template::new(alloc, &parts)?;
        Ok(LinkList { row })
    }

    /// The list of what this query found. An id that is empty, `.` or `..` is a fault.
    pub fn page(&self, alloc: Global, query: &str, found: &[Found]) -> Result<String, FillFault>
        ensures { IfOk result (λ page. IsLinkList query.now found.now (string_bytes page)) }
    {
        laws::pages_law();
        let mut page = String::new(alloc);
        for item in found {
            self.row.append(&mut page, &[item.id, query, item.name])?;
        }
        Ok(page)
    }
}
