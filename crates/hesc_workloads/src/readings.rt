//! Places, pages and forms that are read back.

use crate::digest::Digest;
use crate::kinds::{DENSE, MANY_SCRIPTS, MARKUP, SCRIPT, STYLE};
use crate::numbers::Numbers;
use crate::texts::{any_piece, names_of, text_of};
use hesc_places::{
    Attribute, End, Place, Quoting, append_enclosed, append_form, append_page, end_of_place,
    read_form, read_page, read_place,
};
use html_escape::Encoder;
use std::alloc::{AllocError, Global};

// Each place with an encoder that suits it and the length of its opening mark.
static PLACES: [(Encoder, Place, usize); 14] = [
    (Encoder::Text, Place::Text, 1),
    (Encoder::DoubleQuotedAttribute, Place::DoubleAttribute, 1),
    (Encoder::SingleQuotedAttribute, Place::SingleAttribute, 1),
    (
        Encoder::UnquotedAttribute,
        Place::UnquotedAttribute(End::Tab),
        1,
    ),
    (
        Encoder::UnquotedAttribute,
        Place::UnquotedAttribute(End::LineFeed),
        1,
    ),
    (
        Encoder::UnquotedAttribute,
        Place::UnquotedAttribute(End::FormFeed),
        1,
    ),
    (
        Encoder::UnquotedAttribute,
        Place::UnquotedAttribute(End::Space),
        1,
    ),
    (
        Encoder::UnquotedAttribute,
        Place::UnquotedAttribute(End::Greater),
        1,
    ),
    (Encoder::ScriptSingleQuoted, Place::ScriptSingle, 1),
    (Encoder::ScriptDoubleQuoted, Place::ScriptDouble, 1),
    (Encoder::StyleSingleQuoted, Place::StyleSingle, 1),
    (Encoder::StyleDoubleQuoted, Place::StyleDouble, 1),
    (Encoder::Script, Place::ScriptBody, 8),
    (Encoder::Style, Place::StyleBody, 7),
];

/// The texts that are written and read back, and the names of attributes.
#[derive(Drop)]
struct Sources {
    prose: String,
    special: String,
    code: String,
    rules: String,
    names: Vec<String>,
}

pub(crate) fn read_back(
    alloc: Global,
    numbers: &mut Numbers,
    rounds: usize,
    digest: &mut Digest,
) -> Result<(), AllocError> {
    let mut prose = text_of(alloc, &MARKUP, numbers, 200_000)?;
    prose.push_str(text_of(alloc, &MANY_SCRIPTS, numbers, 100_000)?.as_str())?;
    let sources = Sources {
        prose,
        special: text_of(alloc, &DENSE, numbers, 40_000)?,
        code: text_of(alloc, &SCRIPT, numbers, 200_000)?,
        rules: text_of(alloc, &STYLE, numbers, 200_000)?,
        names: names_of(alloc, rounds.saturating_mul(20).min(20_000))?,
    };
    let mut page = String::new(alloc);
    for round in 0..rounds {
        read_places(alloc, &sources, &mut page, numbers, round, digest)?;
        read_one_page(alloc, &sources, &mut page, numbers, digest)?;
        let count = numbers.length(5, 500);
        read_one_form(alloc, &sources, &mut page, numbers, count, digest)?;
    }
    let count = sources.names.len();
    read_one_form(alloc, &sources, &mut page, numbers, count, digest)
}

// In every sixteenth round, texts that are nearly all special bytes.
fn texts_for(sources: &Sources, place: Place, round: usize) -> &str {
    match place {
        Place::ScriptBody => &sources.code,
        Place::StyleBody => &sources.rules,
        _ if round % 16 == 15 => &sources.special,
        _ => &sources.prose,
    }
}

// A text in each place, from 10 bytes to 64 KB.
fn read_places(
    alloc: Global,
    sources: &Sources,
    page: &mut String,
    numbers: &mut Numbers,
    round: usize,
    digest: &mut Digest,
) -> Result<(), AllocError> {
    for (encoder, place, mark) in &PLACES {
        let texts = texts_for(sources, *place, round);
        let length = numbers.length(10, 65_536);
        let text = any_piece(texts, numbers, length);
        page.clear();
        let written = append_enclosed(page, *encoder, *place, text).is_ok();
        digest.add_number(written as u64);
        // What follows the mark of the end.
        page.push_str(any_piece(&sources.special, numbers, 20))?;
        if let Some(inside) = page.as_bytes().get(*mark..) {
            read_one_place(alloc, *place, inside, digest)?;
        }
    }
    Ok(())
}

fn read_one_place(
    alloc: Global,
    place: Place,
    inside: &[u8],
    digest: &mut Digest,
) -> Result<(), AllocError> {
    match read_place(alloc, place, inside)? {
        Some(found) => {
            digest.add_number(found.end as u64);
            digest.add(&found.value);
        }
        None => digest.add_number(2),
    }
    match end_of_place(place, inside) {
        Some(end) => digest.add_number(end as u64),
        None => digest.add_number(3),
    }
    Ok(())
}

fn read_one_page(
    alloc: Global,
    sources: &Sources,
    page: &mut String,
    numbers: &mut Numbers,
    digest: &mut Digest,
) -> Result<(), AllocError> {
    let length = numbers.length(10, 4_000);
    let first = any_piece(&sources.prose, numbers, 30);
    let second = any_piece(&sources.prose, numbers, 200);
    let third = any_piece(&sources.prose, numbers, length);
    page.clear();
    let written = append_page(page, first, second, third).is_ok();
    digest.add_number(written as u64);
    match read_page(alloc, page.as_bytes())? {
        Some(page) => {
            digest.add(&page.first);
            digest.add(&page.second);
            digest.add(&page.third);
            digest.add_number(page.end as u64);
        }
        None => digest.add_number(4),
    }
    Ok(())
}

fn read_one_form(
    alloc: Global,
    sources: &Sources,
    page: &mut String,
    numbers: &mut Numbers,
    count: usize,
    digest: &mut Digest,
) -> Result<(), AllocError> {
    write_form(alloc, sources, page, numbers, count, digest)?;
    match read_form(alloc, page.as_bytes())? {
        Some(form) => {
            for (name, quoting, value) in &form.attributes {
                digest.add(name);
                digest.add_number((*quoting == Quoting::Unquoted) as u64);
                digest.add(value);
            }
            digest.add(&form.script);
            digest.add_number(form.end as u64);
        }
        None => digest.add_number(5),
    }
    Ok(())
}

fn write_form(
    alloc: Global,
    sources: &Sources,
    page: &mut String,
    numbers: &mut Numbers,
    count: usize,
    digest: &mut Digest,
) -> Result<(), AllocError> {
    let mut attributes = Vec::new(alloc);
    for name in sources.names.iter().take(count) {
        let quoting = match numbers.below(6) {
            0 => Quoting::Unquoted,
            1 => Quoting::Single,
            _ => Quoting::Double,
        };
        let length = numbers.length(10, 200);
        attributes.push(Attribute {
            name: name.as_str(),
            quoting,
            value: any_piece(&sources.prose, numbers, length),
        })?;
    }
    let script = any_piece(&sources.prose, numbers, 300);
    page.clear();
    let written = append_form(page, attributes.as_slice(), script).is_ok();
    digest.add_number(written as u64);
    Ok(())
}
