//! URLs as data: what a browser reads of a URL that holds hostile texts, and which texts are a link.
//!
//! Tabs part the columns of a row, and `test_support::shown` says what stands for a character that could
//! not be seen. A row that begins with `#` heads the rows behind it. `{1}` stands for each text in turn,
//! and `{2}` for each with each; in a URL for its component. A reading has the scheme and the authority in
//! its first line, and then, decoded, each segment, pair and fragment in a line of its own.
//!
//! - `page BASE`: the URL of the page on which the URLs behind it stand.
//! - `texts`: a new list of texts begins. `text TEXT` adds one, `text TEXT COMPONENT` one whose component is
//!   known.
//! - `url REFERENCE URL` and perhaps a `READING`: what is read in a reference with each text. In `segment ..`
//!   the text is a whole segment, which `.` and `..` may not be.
//! - `value MARKUP READING`: the same of a link in a template, in double quotes, and where it has one slot in
//!   single quotes, and without quotes if it has no `=`. In `value-segment ..` the text is a whole segment,
//!   and the template refuses the empty text, `.` and `..`.
//! - `filled BASE FRONT TEXT REST URL` and perhaps a `READING`: what is read in a reference with this text,
//!   also where no slot may stand. `no URL` if it is none.
//! - `relative FRONT`: no URL by itself, and a segment is open behind it.
//! - `is-segment TEXT`, `no-segment TEXT`: whether a text may be a whole segment.
//! - `link TEXT`, `no-link TEXT`: whether a text may be a whole link, which then has a scheme of the web, of
//!   mail or of its page.
//! - `own-path TEXT`, `no-own-path TEXT`: whether a text may be the whole URL of a script, which then stands
//!   on the page's own host.
//!
//! Printed is each row that does not hold, and last how many rows there are, and how many of them are wrong.
#![tactic(auto)]

mod links;
mod read;
mod references;
mod rows;

use crate::rows::{State, holds};
use std::io;

fn main(rt: HostRuntime) -> io::Result<()> {
    let mut rows = 0_u64;
    let mut wrong = 0_u64;
    let mut state = State::new(rt.alloc());
    for line in rt.lines(rt.alloc()) {
        let row = line?;
        if !row.starts_with('#') {
            rows = rows.saturating_add(1);
            if !holds(rt.alloc(), &mut state, row.as_str())? {
                wrong = wrong.saturating_add(1);
                println!(rt; "wrong: {row}")?;
            }
        }
    }
    println!(rt; "{rows} rows, {wrong} wrong")
}
