//! A caller of named templates: mails as rows of a table. No sender and no subject can change the
//! table's structure, and the contract says so; it says, too, that no name is ever missing.
ghost use Rattle.std.specs.Prelude.{◌≡◌, ◌∷◌, ◌++◌, [], ℕ, List, IfErr, OnOk, map};
ghost use Rattle.std.specs.String.{string_bytes};
ghost use Rattle.html_template.specs.Words.{Given, IsPageOf, part_of};
ghost use Rattle.html_template_source.specs.Words.{chunks_of, names_of};
ghost use Rattle.html_template_source.specs.declared.faults.BindFault.TheVariants.{Memory};
ghost use Rattle.uses.specs.Templates.MailRows.{row_names, row_parts, row_pieces};

use html_template::Part;
use html_template_source::{BindFault, NamedTemplate, SourceFault, laws};
use std::alloc::Global;

const ROW: &str = "<tr><td>{{from}}<td>{{subject}}</tr>";

/// A mail.
#[derive(Clone, Copy)]
pub struct Mail<'m> {
    pub from: &'m str,
    pub subject: &'m str,
}

/// The template of a row, which is made once.
#[derive(Drop)]
pub struct MailRows {
    row: NamedTemplate<'static>,
    ghost parts_are: { map part_of (chunks_of row) ≡ row_parts },
    ghost names_are: { names_of row ≡ row_names },
    ghost pieces_are: { chunks_of row ≡ row_pieces },
}

impl MailRows {
    /// Makes the template.
    #[tactic(auto, unfolding(html_tokenizer::specs::Tokenizer::Tokenization::consume))]
    pub fn new(alloc: Global) -> Result<MailRows, SourceFault> {
        let parts = [
            Part::Markup("<tr><td>"),
            Part::Slot,
            Part::Markup("<td>"),
            Part::Slot,
            Part::Markup("</tr>"),
        ];
        let row = NamedTemplate::parse(alloc, ROW)?;
        laws::own_source_law(&row, ROW, &parts, &["from", "subject"]);
        Ok(MailRows { row })
    }

    /// Appends the row of a mail: the page so far and the row are a page again.
    pub fn append(&self, page: &mut String, mail: Mail) -> Result<(), BindFault>
        ensures row { OnOk result ((parts : List Given) (texts : List (List ℕ))
            → IsPageOf parts texts (string_bytes page.old)
            → IsPageOf (parts ++ row_parts) (texts ++ mail.entry.from.now ∷ mail.entry.subject.now ∷ [])
            (string_bytes page.new)) }
        ensures memory { IfErr result (λ fault. fault ≡ Memory) }
    {
        self.row
            .append(page, &[("from", mail.from), ("subject", mail.subject)])
    }
}
