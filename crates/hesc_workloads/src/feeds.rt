//! Documents of others that are decoded: references by common and by all names, and by numbers.

use crate::digest::Digest;
use crate::kinds::{
    BARE_AMPERSANDS, COMMON_REFERENCES, MARKUP, NAMED_REFERENCES, NUMBERED_REFERENCES,
};
use crate::numbers::Numbers;
use crate::texts::{any_piece, text_of};
use html_entities::html_entities;
use html_escape::{
    decode_html_entities, decode_html_entities_to_string, decode_html_entities_with,
    decode_html_entities_with_to_string, decode_html_entities_with_to_vec,
};
use std::alloc::{AllocError, Global};

pub(crate) fn decode_feeds(
    alloc: Global,
    numbers: &mut Numbers,
    rounds: usize,
    digest: &mut Digest,
) -> Result<(), AllocError> {
    let texts = [
        text_of(alloc, &COMMON_REFERENCES, numbers, 400_000)?,
        text_of(alloc, &NAMED_REFERENCES, numbers, 400_000)?,
        text_of(alloc, &NUMBERED_REFERENCES, numbers, 200_000)?,
        text_of(alloc, &MARKUP, numbers, 200_000)?,
        text_of(alloc, &BARE_AMPERSANDS, numbers, 100_000)?,
    ];
    let mut page = String::new(alloc);
    for _ in 0..rounds {
        for text in &texts {
            let length = numbers.length(1_000, 100_000);
            let whole = any_piece(text, numbers, length);
            let short = any_piece(text, numbers, 60);
            page.clear();
            decode(alloc, whole, short, &mut page, digest)?;
        }
    }
    Ok(())
}

fn decode(
    alloc: Global,
    whole: &str,
    short: &str,
    page: &mut String,
    digest: &mut Digest,
) -> Result<(), AllocError> {
    let table = html_entities();
    let borrowed = decode_html_entities(alloc, whole)?;
    digest.add(borrowed.as_str().as_bytes());
    let by_all_names = decode_html_entities_with(alloc, &table, whole)?;
    digest.add(by_all_names.as_str().as_bytes());
    decode_html_entities_with_to_string(&table, short, page)?;
    decode_html_entities_to_string(by_all_names.as_str(), page)?;
    digest.add(page.as_bytes());
    let mut bytes = Vec::new(alloc);
    decode_html_entities_with_to_vec(&table, borrowed.as_str(), &mut bytes)?;
    digest.add(&bytes);
    Ok(())
}
