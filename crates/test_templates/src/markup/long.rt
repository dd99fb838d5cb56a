//! Long markup: it is read in time that grows with its length alone, a megabyte whole and byte by byte,
//! and four megabytes of short stretches whole.
use crate::hostile::repeated;
use html_tokenizer::Reader;
use std::alloc::{AllocError, Global};
use std::process::Abort;
use std::slice;
use std::test::Fail;

// A head, a part that stands there so often that it makes a megabyte, and a tail: together a page that
// may end.
static MARKUP: [(&str, &str, &str); 39] = [
    ("", "a.", ""),
    ("", "/", ""),
    ("", "\u{2026}", ""),
    ("", "&amp;", ""),
    ("", "&a", " "),
    ("&", "a", " "),
    ("<p a=\"", "&notx", "\">"),
    ("<!--", "-", "-->"),
    ("<!--", "- ", "-->"),
    ("<!doctype html public \"", "a", "\">"),
    ("<!doctype html system '", "<", "'>"),
    ("<title>", "<", "</title>"),
    ("<title></", "a", "></title>"),
    ("<textarea>", "</textare", "</textarea>"),
    ("<textarea>", "<b></b>", "</textarea>"),
    ("<p", "q", ">"),
    ("<p ", "a", "=b>"),
    ("<p a=\"", "&lt;", "\">"),
    ("<p a='", "&b=", "'>"),
    ("<p a=", "b", ">"),
    ("<script>/*", "*", "*/</script>"),
    ("<script>//", "<", "\n</script>"),
    ("<script>'", "\\\\", "'</script>"),
    ("<script>'", "</b>", "'</script>"),
    ("<script>'</", "a", "'</script>"),
    ("<style>'", "</styl", "'</style>"),
    ("<style>", "u", "</style>"),
    ("<script>`", "a", "</script>"),
    ("<script>`", "</script", "</script>"),
    ("<script><!--", "-a", "--></script>"),
    ("<script><!--", "<script></script>-", "</script>"),
    ("<style>\\", "</", "</style>"),
    ("<iframe>", "<", "</iframe>"),
    ("<svg>", "<g/>", "</svg>"),
    ("<svg><style>", "a", "</style></svg>"),
    ("<math>", "<mi>a</mi>", "</math>"),
    ("<select>", "<option>a", "</select>"),
    ("<noscript>", "<p a='b'>", "</noscript>"),
    ("<noscript><style>", "a", "</style></noscript>"),
];

// Short stretches, each up to a byte that is near, where another byte that could end it comes at the end
// alone: a search that went on to that one, and began anew for each stretch, would not end.
static SHORT_STRETCHES: [(&str, &str, &str); 18] = [
    ("<script>", "a/**/", "</script>"),
    ("<script>", "'a'+", "''</script>"),
    ("<script>", "\"a\"+", "''</script>"),
    ("<script>/*", "a*", "*/</script>"),
    ("<script>'", "a\\n", "'</script>"),
    ("<script>'", "a</b>", "'</script>"),
    ("<script>", "a//b\n", "</script>"),
    ("<script type=\"text/plain\">", "a<", "</script>"),
    ("<style>", "a/**/", "</style>"),
    ("<style>", "'a' ", "</style>"),
    ("<style>/*", "a*", "*/</style>"),
    ("<!--", "a-", "-->"),
    ("", "a&lt;", ""),
    ("", "a<b>", ""),
    ("<title>", "a<b>", "</title>"),
    ("<p a=\"", "b&lt;", "\">"),
    ("<p a='", "b&lt;", "'>"),
    ("<p a=", "b&lt;", ">"),
];

const MEGABYTE: usize = 1_000_000;

fn page(
    alloc: Global,
    (head, part, tail): (&str, &str, &str),
    length: usize,
) -> Result<String, AllocError> {
    let mut page = String::from_str(alloc, head)?;
    let times = length / part.len().max(1);
    page.push_str(repeated(alloc, part, times)?.as_str())?;
    page.push_str(tail)?;
    Ok(page)
}

#[test]
fn long_markup_is_read(rt: HostRuntime) -> Result<(), Fail> {
    for &(head, part, tail) in &MARKUP {
        let page = page(rt.alloc(), (head, part, tail), MEGABYTE)?;
        let mut whole = Reader::new(rt.alloc());
        whole.read(page.as_bytes())?;
        assert!(rt; whole.may_end(), "{head}{part}{tail}");
        let mut bytewise = Reader::new(rt.alloc());
        for byte in page.as_bytes() {
            bytewise.read(slice::from_ref(byte))?;
        }
        assert!(rt; bytewise.may_end(), "{head}{part}{tail} byte by byte");
    }
    Ok(())
}

#[test]
fn short_stretches_are_read_to_their_end_alone(rt: HostRuntime) -> Result<(), Fail> {
    for &(head, part, tail) in &SHORT_STRETCHES {
        let page = page(rt.alloc(), (head, part, tail), 4 * MEGABYTE)?;
        let mut reader = Reader::new(rt.alloc());
        reader.read(page.as_bytes())?;
        assert!(rt; reader.may_end(), "{head}{part}{tail}");
    }
    Ok(())
}
