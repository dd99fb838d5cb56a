//! A caller of templates: a form that gives a draft back to whoever wrote it. Nothing in the draft can
//! change the page's structure, and the contract says so.
ghost use Rattle.std.specs.Prelude.{◌≡◌, IfOk, map};
ghost use Rattle.std.specs.String.{string_bytes};
ghost use Rattle.html_template.specs.Words.{part_of, pieces_of};
ghost use Rattle.uses.specs.Templates.FormPages.{IsFormPage, form_parts};

use html_template::{FillFault, Part, Template, TemplateFault, laws};
use std::alloc::Global;

/// What was written so far.
#[derive(Clone, Copy)]
pub struct Draft<'d> {
    pub id: &'d str,
    pub title: &'d str,
    pub tags: &'d str,
    pub text: &'d str,
}

/// The form's template, which is made once.
#[derive(Drop)]
pub struct FormTemplate {
    template: Template<'static>,
    ghost parts: { map part_of (pieces_of template) ≡ form_parts },
}

impl FormTemplate {
    /// Makes the template.
    pub fn new(alloc: Global) -> Result<FormTemplate, TemplateFault> {
        let parts = [
            Part::Markup("<form method=post action=\"/notes/"),
            Part::Slot,
            Part::Markup("\"><input name=title value=\""),
            Part::Slot,
            Part::Markup("\"><input name=tags value='"),
            Part::Slot,
            Part::Markup("'><textarea name=text>\n"),
            Part::Slot,
            Part::Markup("</textarea></form><script>restore(\""),
            Part::Slot,
            Part::Markup("\");</script>"),
        ];
        let template = Template::new(alloc, &parts)?;
        Ok(FormTemplate { template })
    }

    /// The page with this draft.
    pub fn page(&self, alloc: Global, draft: Draft) -> Result<String, FillFault>
        ensures { IfOk result (λ page. IsFormPage draft.entry (string_bytes page)) }
    {
        laws::pages_law();
        let texts = [draft.id, draft.title, draft.tags, draft.text, draft.id];
        let mut page = String::new(alloc);
        self.template.append(&mut page, &texts)?;
        Ok(page)
    }
}
