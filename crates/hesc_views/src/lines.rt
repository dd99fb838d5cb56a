//! The line of each fault: what is wrong, and where.
ghost use Rattle.std.specs.Prelude.{◌≡◌, ◌++◌, map, string_bytes, IfOk, OnOk};
ghost use Rattle.hesc_views.specs.Faults.{
  count_text,
  front_of,
  line_text,
  place_text,
  sections_text,
  standing_in,
  two_text,
  what_is_wrong,
  wrong_part,
  wrong_tag,
  wrong_value,
};

use crate::faults::{Fault, Refusal, Standing};
use crate::place::{Spot, at};
use html_template::{PartFault, TextFault};
use html_view::{TagFault, ValueFault};
use std::alloc::{AllocError, Allocator};

/// The line of a fault of these files, which the program prints to standard error, without its line
/// feed.
///
/// Of a slot in line 3 and column 14 of the first of the files, `page.html`, where no text may stand, it
/// is `hesc: page.html:3:14: no text may stand here`.
pub fn line_of<A: Allocator>(
    alloc: A,
    paths: &[&str],
    fault: Fault,
) -> Result<String<A>, AllocError>
    ensures { IfOk result (λ line. string_bytes line
        ≡ line_text (map (λ path. path.now) paths.now) fault) }
{
    let mut line = String::new(alloc);
    append_front(&mut line, paths, fault)?;
    line.push_str(what_is_wrong(fault))?;
    append_sections(&mut line, paths, standing_in(fault))?;
    Ok(line)
}

// The sections that stand where the fault shows.
fn standing_in(fault: Fault) -> Standing
    ensures { result ≡ standing_in fault }
{
    match fault {
        Fault::At(_, Refusal::Part(_, standing)) => standing,
        Fault::Unfinished(standing) => standing,
        _ => Standing::None,
    }
}

// Appends which sections stand there.
fn append_sections<A: Allocator>(
    line: &mut String<A>,
    paths: &[&str],
    standing: Standing,
) -> Result<(), AllocError>
    ensures { OnOk result (string_bytes line.new ≡ string_bytes line.old
        ++ sections_text (map (λ path. path.now) paths.now) standing) }
{
    match standing {
        Standing::None => Ok(()),
        Standing::One(section) => {
            line.push_str(" (if the section at ")?;
            append_spot(line, paths, section)?;
            line.push_str(" stands)")
        }
        Standing::Behind(before, first, last) => {
            line.push_str(" (if the sections at ")?;
            append_two(line, paths, first, last)?;
            append_count(line, before)?;
            line.push_str(")")
        }
    }
}

// Appends where two sections are.
fn append_two<A: Allocator>(
    line: &mut String<A>,
    paths: &[&str],
    first: Spot,
    last: Spot,
) -> Result<(), AllocError>
    ensures { OnOk result (string_bytes line.new ≡ string_bytes line.old
        ++ two_text (map (λ path. path.now) paths.now) first last) }
{
    append_spot(line, paths, first)?;
    line.push_str(" and ")?;
    append_spot(line, paths, last)?;
    line.push_str(" stand")
}

// Appends how many sections more stand.
fn append_count<A: Allocator>(line: &mut String<A>, before: usize) -> Result<(), AllocError>
    ensures { OnOk result (string_bytes line.new ≡ string_bytes line.old ++ count_text before) }
{
    if before == 0 {
        return Ok(());
    }
    write!(line, ", and {before} before them")
}

fn append_spot<A: Allocator>(
    line: &mut String<A>,
    paths: &[&str],
    spot: Spot,
) -> Result<(), AllocError>
    ensures { OnOk result (string_bytes line.new ≡ string_bytes line.old
        ++ place_text (map (λ path. path.now) paths.now) spot) }
{
    let path = at(paths, spot.file);
    let row = spot.line;
    let column = spot.column;
    write!(line, "{path}:{row}:{column}")
}

// Appends who tells it, and the file and the place in it, where the fault is of one.
fn append_front<A: Allocator>(
    line: &mut String<A>,
    paths: &[&str],
    fault: Fault,
) -> Result<(), AllocError>
    ensures { OnOk result (string_bytes line.new ≡ string_bytes line.old
        ++ front_of (map (λ path. path.now) paths.now) fault) }
{
    match fault {
        Fault::Usage => Ok(()),
        Fault::UnreadableFile(file) | Fault::FileNotUtf8(file) => {
            let path = at(paths, file);
            write!(line, "hesc: {path}: ")
        }
        Fault::Unfinished(_) => {
            let path = at(paths, 0);
            write!(line, "hesc: {path}: ")
        }
        Fault::At(spot, _) => {
            let path = at(paths, spot.file);
            let row = spot.line;
            let column = spot.column;
            write!(line, "hesc: {path}:{row}:{column}: ")
        }
        Fault::UnreadableInput | Fault::InputNotUtf8 => line.push_str("hesc: "),
        Fault::NotJson | Fault::RepeatedKey => line.push_str("hesc: "),
        Fault::Memory | Fault::Write => line.push_str("hesc: "),
    }
}

// What is wrong, in a few words.
fn what_is_wrong(fault: Fault) -> &'static str
    ensures { result.now ≡ what_is_wrong fault }
{
    match fault {
        Fault::Usage => "usage: hesc COMMAND [ARGUMENT..]",
        Fault::UnreadableFile(_) => "cannot be read",
        Fault::FileNotUtf8(_) => "is not UTF-8",
        Fault::At(_, Refusal::Tag(why)) => wrong_tag(why),
        Fault::At(_, Refusal::Part(why, _)) => wrong_part(why),
        Fault::At(_, Refusal::Value(why)) => wrong_value(why),
        Fault::At(_, Refusal::Ambiguous) => {
            "this slot stands in two places, or before two kinds of markup; write one slot for each"
        }
        Fault::At(_, Refusal::NotInText) => "no fragment may stand here, but in text",
        Fault::At(_, Refusal::TooManyWays) => {
            "too many sections stand within one tag; let each hold whole attributes or whole tags"
        }
        Fault::Unfinished(_) => "ends within a tag, a comment, a reference or an element",
        Fault::UnreadableInput => "input cannot be read",
        Fault::InputNotUtf8 => "input is not UTF-8",
        Fault::NotJson => "input is not JSON",
        Fault::RepeatedKey => "input has a key twice in one object",
        Fault::Memory => "out of memory",
        Fault::Write => "output cannot be written",
    }
}

fn wrong_tag(fault: TagFault) -> &'static str
    ensures { result.now ≡ wrong_tag fault }
{
    match fault {
        TagFault::Unclosed => "no }} ends this tag",
        TagFault::BadName => {
            "bad name; a name is of letters, digits, _ and -, with dots between words"
        }
        TagFault::Raw => "no }}} ends this tag",
        TagFault::BadTag => "no tag begins like this; for a {{ in the page write {{\"{{\"}}",
        TagFault::Unopened => "nothing of this name is open here",
        TagFault::Unended => "this has no end; write {{/name}}",
        TagFault::NoPartial =>
            "no such partial; give its file, in front of partials that ask for it",
        TagFault::TooDeep => "more than 32 tags stand in one another",
    }
}

fn wrong_part(fault: PartFault) -> &'static str
    ensures { result.now ≡ wrong_part fault }
{
    match fault {
        PartFault::Malformed => "browsers may not read this markup alike",
        PartFault::NoPlace => "no text may stand here",
        PartFault::Forbidden => "no text may stand here, since it would be read as code",
        PartFault::NotPlain =>
            "this URL has a slot; percent-encode white space, \\ and other references than &amp;",
        PartFault::NotFixed => "the host of this URL is open; begin it with / or https://host/",
        PartFault::DotSegment =>
            "a segment of this URL may be . or ..; write other bytes beside the dots",
        PartFault::AfterLink =>
            "a slot begins this URL; it may go on with one /, ?, #, a letter, a digit or _",
        PartFault::AfterStyleValue => {
            "a slot stands in this declaration; up to its ; it may go on with letters, digits, spaces and - _ # % . , + !"
        }
    }
}

fn wrong_value(fault: ValueFault) -> &'static str
    ensures { result.now ≡ wrong_value fault }
{
    match fault {
        ValueFault::Missing => "no value has this name",
        ValueFault::NotAText => "the value is no text",
        ValueFault::NotJson => "the value has a fragment in it, of which there is no JSON",
        ValueFault::NotAFragment => {
            "the value is no fragment, as no value of JSON is; write {{name}} for its text"
        }
        ValueFault::NotAttributes => {
            "the value is no object of attributes; this slot stands between attributes"
        }
        ValueFault::Repeated => "the list has two items or more, and this section stands once",
        ValueFault::Unfit(TextFault::EmptyUnquoted) => {
            "the text is empty; write quotes around the slot"
        }
        ValueFault::Unfit(TextFault::EmptySegment) =>
            "the text is empty, and a segment of a URL is not",
        ValueFault::Unfit(TextFault::DotSegment) =>
            "the text is . or .., and a segment of a URL is not",
        ValueFault::Unfit(TextFault::NotALink) => {
            "the text is no link; its scheme has to be http, https or mailto"
        }
        ValueFault::Unfit(TextFault::NotAnOwnPath) => {
            "the text is no own path; begin it with one /, and leave out white space, \\ and dot segments"
        }
        ValueFault::Unfit(TextFault::NotABase) => {
            "the text is no base; begin it with one /, http:// or https://, leave out ?, # and dot segments, and end it in / before a name alone"
        }
        ValueFault::Unfit(TextFault::NotAnOwnBase) => {
            "the text is no base of the page's own host; begin it with one /"
        }
        ValueFault::Unfit(TextFault::NotAStyleValue) => {
            "the text is no piece of a declaration's value; it may have letters, digits, spaces and - _ # % . , +"
        }
    }
}
