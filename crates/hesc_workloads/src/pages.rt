//! Pages that are written: by named and by plain templates, enclosed texts, and forms.

use crate::digest::Digest;
use crate::kinds::{MANY_SCRIPTS, MARKUP};
use crate::numbers::Numbers;
use crate::texts::{any_piece, names_of, text_of};
use hesc_places::{Attribute, End, Place, Quoting, append_enclosed, append_form, append_page};
use html_escape::{Encoder, encode_text_to_writer};
use html_template::{Part, Template};
use html_template_source::NamedTemplate;
use std::alloc::{AllocError, Global};

const ARTICLE: &str =
    "<!DOCTYPE html><html lang=\"{{language}}\"><head><title>{{title}} - {{site}}</title>\
<meta name=\"author\" content=\"{{author}}\"></head><body><h1>{{title}}</h1>\
<p class=\"by\"><a href=\"/users/{{id}}\">{{author}}</a>, {{date}}</p><p>{{lead}}</p><p>{{text}}</p>\
<ul><li>{{first}}</li><li>{{second}}</li></ul><p title='{{note}}'>{{site}}</p>\
<script>visit(\"{{id}}\", '{{title}}');</script></body></html>";

const SETTINGS: &str = "<form method=post action=\"/settings/{{user}}\">\
<input name=mail value=\"{{mail}}\"><input name=phone value=\"{{phone}}\">\
<input name=street value=\"{{street}}\"><input name=city value=\"{{city}}\">\
<input name=zone value=\"{{zone}}\"><input name=country value='{{country}}'>\
<input name=language value={{language}}><textarea name=about>{{about}}</textarea>\
<p>{{help_mail}}</p><p>{{help_phone}}</p><p>{{help_street}}</p><p>{{help_city}}</p>\
<p>{{help_zone}}</p><p>{{help_country}}</p><p>{{help_language}}</p><p>{{help_about}}</p>\
<button title=\"{{help_save}}\">{{save}}</button><button title=\"{{help_back}}\">{{back}}</button>\
<p>{{user}} {{mail}} {{phone}} {{street}} {{city}} {{zone}} {{country}}</p></form>";

/// The templates, the texts that fill them, and the page that is written again and again.
#[derive(Drop)]
struct Site<'s> {
    texts: &'s str,
    article: NamedTemplate<'static>,
    settings: NamedTemplate<'static>,
    row: Template<'static>,
    names: &'s [String],
    page: String,
}

pub(crate) fn write_pages(
    alloc: Global,
    numbers: &mut Numbers,
    rounds: usize,
    digest: &mut Digest,
) -> Result<(), AllocError> {
    let mut texts = text_of(alloc, &MARKUP, numbers, 60_000)?;
    texts.push_str(text_of(alloc, &MANY_SCRIPTS, numbers, 20_000)?.as_str())?;
    let names = names_of(alloc, rounds.saturating_mul(20).min(20_000))?;
    let (Ok(article), Ok(settings), Ok(row)) = (
        NamedTemplate::parse(alloc, ARTICLE),
        NamedTemplate::parse(alloc, SETTINGS),
        row_template(alloc),
    ) else {
        digest.add_number(1);
        return Ok(());
    };
    let mut site = Site {
        texts: texts.as_str(),
        article,
        settings,
        row,
        names: names.as_slice(),
        page: String::new(alloc),
    };
    for round in 0..rounds {
        write_round(alloc, &mut site, numbers, round, digest)?;
    }
    write_form(alloc, &mut site, numbers, names.len(), digest)
}

fn row_template(alloc: Global) -> Result<Template<'static>, html_template::TemplateFault> {
    let parts = [
        Part::Markup("<tr id=\"row"),
        Part::Slot,
        Part::Markup("\"><td>"),
        Part::Slot,
        Part::Markup("</td><td title=\""),
        Part::Slot,
        Part::Markup("\">"),
        Part::Slot,
        Part::Markup("</td><td><a href=\"/items/"),
        Part::Slot,
        Part::Markup("\">"),
        Part::Slot,
        Part::Markup("</a></td></tr>\n"),
    ];
    Template::new(alloc, &parts)
}

fn write_round(
    alloc: Global,
    site: &mut Site<'_>,
    numbers: &mut Numbers,
    round: usize,
    digest: &mut Digest,
) -> Result<(), AllocError> {
    write_article(site, numbers, digest);
    write_list(site, numbers, digest);
    write_places(site, numbers, digest);
    match round % 4 {
        0 => write_settings(site, numbers, digest),
        1 => write_form(alloc, site, numbers, 8, digest)?,
        2 => write_log(alloc, site, numbers, digest)?,
        _ => write_small_page(site, numbers, digest),
    }
    if round % 64 == 63 {
        write_form(alloc, site, numbers, 60, digest)?;
    }
    Ok(())
}

// A text of 5 to 60 bytes.
fn short<'t>(texts: &'t str, numbers: &mut Numbers) -> &'t str {
    let length = numbers.from(5, 56);
    any_piece(texts, numbers, length)
}

fn write_article(site: &mut Site<'_>, numbers: &mut Numbers, digest: &mut Digest) {
    let texts = site.texts;
    let bindings = [
        ("language", "en"),
        ("title", short(texts, numbers)),
        ("site", "The Daily Page"),
        ("author", short(texts, numbers)),
        ("id", short(texts, numbers)),
        ("date", "26 November 2026"),
        ("lead", short(texts, numbers)),
        ("text", any_piece(texts, numbers, 400)),
        ("first", short(texts, numbers)),
        ("second", short(texts, numbers)),
        ("note", short(texts, numbers)),
    ];
    site.page.clear();
    let written = site.article.append(&mut site.page, &bindings);
    digest.add_number(written.is_ok() as u64);
    digest.add(site.page.as_bytes());
}

fn write_settings(site: &mut Site<'_>, numbers: &mut Numbers, digest: &mut Digest) {
    let texts = site.texts;
    let bindings = [
        ("user", short(texts, numbers)),
        ("mail", short(texts, numbers)),
        ("phone", short(texts, numbers)),
        ("street", short(texts, numbers)),
        ("city", short(texts, numbers)),
        ("zone", short(texts, numbers)),
        ("country", short(texts, numbers)),
        ("language", short(texts, numbers)),
        ("about", any_piece(texts, numbers, 200)),
        ("help_mail", "Where we write to"),
        ("help_phone", "Where we call"),
        ("help_street", "Street and number"),
        ("help_city", "City or town"),
        ("help_zone", "Zone or postal code"),
        ("help_country", "Country"),
        ("help_language", "In which language we write"),
        ("help_about", "A few words about you"),
        ("help_save", "Keep all of this"),
        ("save", "Save"),
        ("help_back", "Keep nothing of this"),
        ("back", "Back"),
    ];
    site.page.clear();
    let written = site.settings.append(&mut site.page, &bindings);
    digest.add_number(written.is_ok() as u64);
    digest.add(site.page.as_bytes());
}

fn write_list(site: &mut Site<'_>, numbers: &mut Numbers, digest: &mut Digest) {
    let texts = site.texts;
    site.page.clear();
    for _ in 0..5 {
        let row = [
            short(texts, numbers),
            short(texts, numbers),
            short(texts, numbers),
            short(texts, numbers),
            short(texts, numbers),
            short(texts, numbers),
        ];
        let written = site.row.append(&mut site.page, &row);
        digest.add_number(written.is_ok() as u64);
    }
    digest.add(site.page.as_bytes());
}

fn write_places(site: &mut Site<'_>, numbers: &mut Numbers, digest: &mut Digest) {
    let places = [
        (Encoder::Text, Place::Text),
        (Encoder::DoubleQuotedAttribute, Place::DoubleAttribute),
        (Encoder::Safe, Place::SingleAttribute),
        (
            Encoder::UnquotedAttribute,
            Place::UnquotedAttribute(End::Space),
        ),
        (Encoder::ScriptQuoted, Place::ScriptDouble),
        (Encoder::StyleSingleQuoted, Place::StyleSingle),
    ];
    site.page.clear();
    for (encoder, place) in &places {
        let text = short(site.texts, numbers);
        let written = append_enclosed(&mut site.page, *encoder, *place, text).is_ok();
        digest.add_number(written as u64);
    }
    digest.add(site.page.as_bytes());
}

fn write_form(
    alloc: Global,
    site: &mut Site<'_>,
    numbers: &mut Numbers,
    count: usize,
    digest: &mut Digest,
) -> Result<(), AllocError> {
    let mut attributes = Vec::new(alloc);
    for name in site.names.iter().take(count) {
        let quoting = match numbers.below(6) {
            0 => Quoting::Unquoted,
            1 => Quoting::Single,
            _ => Quoting::Double,
        };
        attributes.push(Attribute {
            name: name.as_str(),
            quoting,
            value: short(site.texts, numbers),
        })?;
    }
    let script = short(site.texts, numbers);
    site.page.clear();
    let written = append_form(&mut site.page, attributes.as_slice(), script).is_ok();
    digest.add_number(written as u64);
    digest.add(site.page.as_bytes());
    Ok(())
}

fn write_log(
    alloc: Global,
    site: &Site<'_>,
    numbers: &mut Numbers,
    digest: &mut Digest,
) -> Result<(), AllocError> {
    let mut log: Vec<u8> = Vec::new(alloc);
    for _ in 0..4 {
        let text = short(site.texts, numbers);
        let written = encode_text_to_writer(text, &mut log).is_ok();
        digest.add_number(written as u64);
    }
    digest.add(&log);
    Ok(())
}

fn write_small_page(site: &mut Site<'_>, numbers: &mut Numbers, digest: &mut Digest) {
    let first = short(site.texts, numbers);
    let second = short(site.texts, numbers);
    let third = short(site.texts, numbers);
    site.page.clear();
    let written = append_page(&mut site.page, first, second, third).is_ok();
    digest.add_number(written as u64);
    digest.add(site.page.as_bytes());
}
