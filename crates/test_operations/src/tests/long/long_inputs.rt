//! Long inputs where many small steps are taken, and texts past 32 MiB: the answers are right, and
//! come in time that grows with the length alone.
use crate::tests::forms::answers::is_made;
use crate::tests::forms::calls::Call;
use crate::tests::forms::values::make_to_writer;
use crate::tests::sessions::encoded_in_pieces;
use html_escape::{
    BodyKind, Decoder, Encoder, EntityTable, Operation, decode_html_entities_with, encode_script,
    encode_style, encode_text_to_string, encode_text_to_vec,
};
use std::alloc::{AllocError, Global};
use std::process::Abort;
use std::test::Fail;
use test_support::long::long_text;
use test_support::rows::Held;
use test_support::{Trouble, WeakWriter, Weakness};

const MEGABYTE: usize = 1 << 20;

// A body of which much is partial for a while.
const BODY: &str = "</scrip</script </styl</style>x<!-<!--\n";

#[test]
fn a_body_of_a_megabyte_comes_in_small_pieces(rt: HostRuntime) -> Result<(), Fail> {
    let text = long_text(rt.alloc(), ("", BODY, MEGABYTE / BODY.len(), ""))?;
    assert!(rt; text.len() > 1_000_000);
    for kind in [BodyKind::Script, BodyKind::Style] {
        for size in [1, 2, 9] {
            let is_whole = is_whole(rt.alloc(), kind, text.as_str(), size)?;
            assert!(rt; is_whole, "{kind:?} by {size}");
        }
    }
    Ok(())
}

// Whether pieces of so many bytes make what the whole text makes.
fn is_whole(alloc: Global, kind: BodyKind, text: &str, size: usize) -> Result<bool, AllocError> {
    let output = encoded_in_pieces(alloc, kind, text, size)?;
    let whole = match kind {
        BodyKind::Script => encode_script(alloc, text)?,
        BodyKind::Style => encode_style(alloc, text)?,
    };
    Ok(output.as_str() == whole.as_str())
}

const STRONG: Weakness = Weakness {
    step: usize::MAX,
    at: 0,
    trouble: Trouble::Calm,
};

static COMMON: [(&[u8], &str); 6] = [
    (b"amp", "&"),
    (b"apos", "'"),
    (b"gt", ">"),
    (b"lt", "<"),
    (b"nbsp", "\u{A0}"),
    (b"quot", "\""),
];

// How many names a long table has beside the common ones, which come after them.
const NAMES: u32 = 100_000;

#[test]
fn a_table_of_100_000_rows_is_made_and_asked(rt: HostRuntime) -> Result<(), Fail> {
    let names = numbers(rt.alloc())?;
    let text = references_to(rt.alloc(), names.as_slice())?;
    let rows = rows_with(rt.alloc(), names.as_slice())?;
    let Ok(table) = EntityTable::new(rows.as_slice()) else {
        panic!(rt; "the rows are a table");
    };
    assert!(rt; each_is_x(&table, names.as_slice()));
    assert!(rt; decoded_length(rt.alloc(), &table, text.as_str())? == 100_000);
    Ok(())
}

fn numbers(alloc: Global) -> Result<Vec<String>, AllocError> {
    let mut names = Vec::new(alloc);
    for number in 0..NAMES {
        names.push((NAMES + number).to_string(alloc)?)?;
    }
    Ok(names)
}

fn references_to(alloc: Global, names: &[String]) -> Result<String, AllocError> {
    let mut text = String::new(alloc);
    for name in names {
        text.push('&')?;
        text.push_str(name.as_str())?;
        text.push(';')?;
    }
    Ok(text)
}

// The names, each with the value `x`, and the common rows.
fn rows_with<'n>(
    alloc: Global,
    names: &'n [String],
) -> Result<Vec<(&'n [u8], &'static str)>, AllocError> {
    let mut rows = Vec::new(alloc);
    for name in names {
        rows.push((name.as_bytes(), "x"))?;
    }
    rows.extend_from_slice(&COMMON)?;
    Ok(rows)
}

fn each_is_x(table: &EntityTable<'_>, names: &[String]) -> bool {
    for name in names {
        if table.get(name.as_bytes()) != Some("x") {
            return false;
        }
    }
    true
}

fn decoded_length(alloc: Global, table: &EntityTable<'_>, text: &str) -> Result<usize, AllocError> {
    let decoded = decode_html_entities_with(alloc, table, text)?;
    Ok(decoded.as_str().len())
}

#[test]
fn an_output_of_16_mib_grows_by_short_appends(rt: HostRuntime) -> Result<(), Fail> {
    let mut string = String::new(rt.alloc());
    let mut vec = Vec::new(rt.alloc());
    for _ in 0..MEGABYTE {
        encode_text_to_string("sixteen letters.", &mut string)?;
        encode_text_to_vec("twelve &amp;", &mut vec)?;
    }
    assert!(rt; string.len() == 16_777_216);
    assert!(rt; vec.len() == 16_777_216);
    Ok(())
}

// How often the part stands in a text that is longer than 32 MiB.
const TIMES: usize = 33 * MEGABYTE / PART.len();

const PART: &str = "a text, sixty-four bytes long, with one change in it: \\/script<-";

// An operation, a head that it changes, what is made of that, and what is made of the part.
static LONG: [(Operation, &str, &str, &str); 5] = [
    (
        Operation::Encode(Encoder::Text),
        "<",
        "&lt;",
        "a text, sixty-four bytes long, with one change in it: \\/script&lt;-",
    ),
    (Operation::Encode(Encoder::Script), "<!--", "<\\!--", PART),
    (
        Operation::Encode(Encoder::StyleQuoted),
        "",
        "",
        "a text, sixty-four bytes long, with one change in it: \\\\/script\\3C -",
    ),
    (Operation::Decode(Decoder::HtmlEntities), "&lt;", "<", PART),
    (Operation::Decode(Decoder::Script), "<\\!--", "<!--", PART),
];

#[test]
fn each_form_goes_past_32_mib(rt: HostRuntime) -> Result<(), Fail> {
    for &(operation, head, made_head, made_part) in &LONG {
        let text = long_text(rt.alloc(), (head, PART, TIMES, ""))?;
        assert!(rt; text.len() > 33_554_432);
        let made = long_text(rt.alloc(), (made_head, made_part, TIMES, ""))?;
        let is_right = goes_so_far(rt.alloc(), operation, text.as_str(), made.as_str())?;
        assert!(rt; is_right, "{operation:?}");
    }
    Ok(())
}

fn goes_so_far(
    alloc: Global,
    operation: Operation,
    text: &str,
    made: &str,
) -> Result<bool, AllocError> {
    let mut written = WeakWriter::new(alloc, STRONG);
    let is_ok = make_to_writer(operation, text, &mut written).is_ok();
    Ok(
        is_ok
            && written.taken.as_slice() == made.as_bytes()
            && is_made(alloc, Call::Of(operation), text, made, Held::Owned)?,
    )
}
