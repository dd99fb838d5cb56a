//! Views as data: which nodes a source has, or why it is refused, and which page data has.
//!
//! Each row of the input has an answer that follows from the rules of Mustache, and a source. It may go on
//! with pairs of a partial's name and its source. Tabs part these, and `test_support::shown` says what
//! stands for a character that could not be seen. A row that begins with `#` heads the rows behind it.
//!
//! The answer is a fault, or the nodes. Behind a fault stands `with TEXT:BYTE` for each section that stands
//! where it shows, by the position of its tag. Markup stands as it is, a slot as `{name Place}`, and a section as
//! `[each name: body]`, where the first word says how often it may stand. What stands where it does not
//! follows after `|`, if there is anything. A slot between attributes is `{name Attributes}`.
//!
//! A row `page PAGE JSON SOURCE` and so on has the page of JSON data, or the fault of the data, and a row
//! `names NAMES SOURCE` the names that a view asks for.
//!
//! Printed is each row whose answer is another one, and last how many rows there are, and how many of them
//! are wrong.
#![tactic(auto)]

#[cfg(test)]
mod fragments;
#[cfg(test)]
mod json_blocks;
#[cfg(test)]
mod memory;
mod names;
mod nodes;
mod pages;
mod refusals;
#[cfg(test)]
mod sizes;

use crate::names::names_of;
use crate::nodes::show_nodes;
use crate::pages::page_of;
use crate::refusals::refusal_of;
use html_view::View;
use std::alloc::{AllocError, Global};
use std::io;
use std::str::Split;
use test_support::shown::text_of;

// The texts of the columns that are left.
fn texts_of(alloc: Global, columns: Split<'_, char>) -> Result<Vec<String>, AllocError> {
    let mut texts = Vec::new(alloc);
    for column in columns {
        texts.push(text_of(alloc, column)?)?;
    }
    Ok(texts)
}

// Pairs of names and sources.
fn partials_of<'t>(
    alloc: Global,
    texts: &'t [String],
) -> Result<Vec<(&'t str, &'t str)>, AllocError> {
    let mut partials = Vec::new(alloc);
    for pair in texts.chunks_exact(2) {
        if let [name, partial] = pair {
            partials.push((name.as_str(), partial.as_str()))?;
        }
    }
    Ok(partials)
}

// The nodes of a source, or the fault.
fn answer_to(alloc: Global, source: &str, texts: &[String]) -> Result<String, AllocError> {
    let partials = partials_of(alloc, texts)?;
    match View::parse(alloc, source, &partials) {
        Ok(view) => {
            let mut shown = String::new(alloc);
            show_nodes(&mut shown, view.nodes())?;
            Ok(shown)
        }
        Err(refused) => refusal_of(alloc, &refused),
    }
}

// The page of data by the source behind it, or the fault.
fn answer_to_data(alloc: Global, json: &str, texts: &[String]) -> Result<String, AllocError> {
    let [source, others @ ..] = texts else {
        return format!(in alloc; "no source");
    };
    let partials = partials_of(alloc, others)?;
    page_of(alloc, json, source.as_str(), &partials)
}

// Whether the row has its answer. If not, it is printed.
fn holds(rt: &impl Print, alloc: Global, row: &str) -> io::Result<bool> {
    let mut columns = row.split('\t');
    let first = columns.next().unwrap_or("");
    let has_kind = first == "page" || first == "names";
    let wanted = if has_kind {
        columns.next().unwrap_or("")
    } else {
        first
    };
    let wanted = text_of(alloc, wanted)?;
    let source = text_of(alloc, columns.next().unwrap_or(""))?;
    let texts = texts_of(alloc, columns)?;
    let answer = match first {
        "page" => answer_to_data(alloc, source.as_str(), &texts)?,
        "names" => names_of(alloc, source.as_str(), &partials_of(alloc, &texts)?)?,
        _ => answer_to(alloc, source.as_str(), &texts)?,
    };
    if answer.as_str() != wanted.as_str() {
        let answer = answer.as_str().replace(alloc, "\n", "⏎")?;
        println!(rt; "{answer}, not {row}")?;
    }
    Ok(answer.as_str() == wanted.as_str())
}

fn main(rt: HostRuntime) -> io::Result<()> {
    let mut rows = 0_u64;
    let mut wrong = 0_u64;
    for line in rt.lines(rt.alloc()) {
        let row = line?;
        if !row.starts_with('#') {
            rows = rows.saturating_add(1);
            if !holds(&rt, rt.alloc(), row.as_str())? {
                wrong = wrong.saturating_add(1);
            }
        }
    }
    println!(rt; "{rows} rows, {wrong} wrong")
}
