//! Callers of URLs with slots: the links of a contact, to write to and to call, and a picture that holds its
//! bytes. The contracts say what a browser reads of each, whatever the texts are.
ghost use Rattle.std.specs.Prelude.{◌≡◌, ◌++◌, ◌∷◌, [], IfOk, OnOk, Option, codes, unwrap_or};
ghost use Rattle.std.specs.String.{string_bytes};
ghost use Rattle.form_urlencoded.specs.Form.{parse};
ghost use Rattle.url.specs.Parser.{parse_url};
ghost use Rattle.url.specs.Parts.{Parts};
ghost use Rattle.html_urls.specs.Hosts.{IsWebBase};
ghost use Rattle.html_urls.specs.Images.{IsImage};
ghost use Rattle.html_urls.specs.Words.{url_of};
ghost use Rattle.uses.specs.Urls.ContactLinks.{call_parts, mail_parts, picture_parts};

use html_urls::{UrlPart, UrlTextFault, append_url, laws};

/// Appends a link to write to a mailbox of `b.example`, `mailto:`, the mailbox, `@b.example?subject=` and the
/// subject.
pub fn append_mail_link(
    output: &mut String,
    mailbox: &str,
    subject: &str,
) -> Result<(), UrlTextFault>
    ensures text { OnOk result (string_bytes output.new
        ≡ string_bytes output.old ++ url_of mail_parts (mailbox.now ∷ subject.now ∷ [])) }
    ensures pairs { OnOk result ((base : Option Parts) → IsWebBase base
        → IfOk (parse_url base (url_of mail_parts (mailbox.now ∷ subject.now ∷ [])))
        (λ url. parse (unwrap_or url.query []) ≡ (codes "subject", subject.now) ∷ [])) }
{
    let parts = [
        UrlPart::Markup("mailto:"),
        UrlPart::Slot,
        UrlPart::Markup("@b.example?subject="),
        UrlPart::Slot,
    ];
    let texts = [mailbox, subject];
    append_url(output, &parts, &texts)?;
    laws::url_pairs_law(&parts, &texts);
    Ok(())
}

/// Appends a link to call a number, `tel:` and the number.
pub fn append_call_link(output: &mut String, number: &str) -> Result<(), UrlTextFault>
    ensures text { OnOk result (string_bytes output.new
        ≡ string_bytes output.old ++ url_of call_parts (number.now ∷ [])) }
    ensures scheme { OnOk result ((base : Option Parts) → IsWebBase base
        → IfOk (parse_url base (url_of call_parts (number.now ∷ []))) (λ url. url.scheme ≡ codes "tel")) }
{
    let parts = [UrlPart::Markup("tel:"), UrlPart::Slot];
    append_url(output, &parts, &[number])?;
    laws::url_shape_law(&parts);
    Ok(())
}

/// Appends the URL of a picture by the base64 of its PNG file.
pub fn append_picture(output: &mut String, base64: &str) -> Result<(), UrlTextFault>
    ensures text { OnOk result (string_bytes output.new
        ≡ string_bytes output.old ++ url_of picture_parts (base64.now ∷ [])) }
    ensures image { OnOk result ((base : Option Parts) → IsWebBase base
        → IfOk (parse_url base (url_of picture_parts (base64.now ∷ []))) IsImage) }
{
    let parts = [UrlPart::Markup("data:image/png;base64,"), UrlPart::Slot];
    append_url(output, &parts, &[base64])?;
    laws::url_shape_law(&parts);
    Ok(())
}
