//! Markup as data: which of it a named template takes, and which pages it makes.
//!
//! Each row of the input has an answer that the Standards give, and the source of a template. It may go on
//! with a text for the slot `a`, and with the page of that text. Tabs part these, and `test_support::shown`
//! says what stands for a character that could not be seen. The answer is `taken`, or the fault, or
//! `nowhere`: then a slot put at any place within the markup stands nowhere. A row that begins with `#`
//! heads the rows behind it.
//!
//! Printed is each row whose answer is another one, and last how many rows there are, and how many of them
//! are wrong.
#![tactic(auto)]

use html_template_source::{NamedTemplate, SourceFault};
use std::alloc::{AllocError, Global};
use std::io;
use test_support::shown::text_of;

// The word `taken`, or the fault.
fn answer_to_source(alloc: Global, source: &str) -> Result<String, AllocError> {
    match NamedTemplate::parse(alloc, source) {
        Ok(_) => format!(in alloc; "taken"),
        Err(SourceFault::NoTemplate(fault)) => format!(in alloc; "{fault:?}"),
        Err(fault) => format!(in alloc; "{fault:?}"),
    }
}

// The same of a text. What is wrong about the page is told too.
fn answer_to_text(
    alloc: Global,
    source: &str,
    text: &str,
    wanted: Option<&str>,
) -> Result<String, AllocError> {
    let Ok(template) = NamedTemplate::parse(alloc, source) else {
        return answer_to_source(alloc, source);
    };
    let mut page = String::new(alloc);
    match template.append(&mut page, &[("a", text)]) {
        Ok(()) if wanted.is_none_or(|wanted| page.as_str() == wanted) => {
            format!(in alloc; "taken")
        }
        Err(fault) if page.is_empty() => format!(in alloc; "{fault:?}"),
        _ => format!(in alloc; "the page {page}"),
    }
}

// The word `nowhere`, or the place of a slot that has another answer.
fn answer_to_places(alloc: Global, markup: &str) -> Result<String, AllocError> {
    for place in 1..markup.len() {
        if let Some((before, following)) = markup.split_at_checked(place) {
            let source = format!(in alloc; "{before}{{{{a}}}}{following}")?;
            let answer = answer_to_source(alloc, source.as_str())?;
            if answer.as_str() != "Part(1, NoPlace)" {
                return format!(in alloc; "{answer} at {place}");
            }
        }
    }
    format!(in alloc; "nowhere")
}

// Whether the row has its answer. If not, it is printed.
fn holds(rt: &impl Print, alloc: Global, row: &str) -> io::Result<bool> {
    let mut columns = row.split('\t');
    let wanted = columns.next().unwrap_or("");
    let source = text_of(alloc, columns.next().unwrap_or(""))?;
    let text = columns.next();
    let page = text_of(alloc, columns.next().unwrap_or(""))?;
    let answer = match text {
        None if wanted == "nowhere" => answer_to_places(alloc, source.as_str())?,
        None => answer_to_source(alloc, source.as_str())?,
        Some(text) => {
            let text = text_of(alloc, text)?;
            let page = Some(page.as_str()).filter(|page| !page.is_empty());
            answer_to_text(alloc, source.as_str(), text.as_str(), page)?
        }
    };
    if answer.as_str() != wanted {
        println!(rt; "{answer}, not {row}")?;
    }
    Ok(answer.as_str() == wanted)
}

fn main(rt: HostRuntime) -> io::Result<()> {
    let mut rows = 0_u64;
    let mut wrong = 0_u64;
    for line in rt.lines(rt.alloc()) {
        let row = line?;
        if !row.starts_with('#') {
            rows = rows.saturating_add(1);
            if !holds(&rt, rt.alloc(), row.as_str())? {
                wrong = wrong.saturating_add(1);
            }
        }
    }
    println!(rt; "{rows} rows, {wrong} wrong")
}
