//! How many bytes a run of the tool asks for, and how often it reads and writes, over streams that
//! take and give much at a time.
use crate::tests::words::operation_word;
use hesc_places::build_page;
use hesc_tool::run;
use std::alloc::{AllocError, Global};
use std::process::Abort;
use std::test::Fail;
use test_support::amounts::{FOR_EACH_ATTRIBUTE, MIXED, SMALL, text_of};
use test_support::operations::OPERATIONS;
use test_support::{Refusing, Trouble, WeakReader, WeakWriter, Weakness};

const STRONG: Weakness = Weakness {
    step: usize::MAX,
    at: 0,
    trouble: Trouble::Calm,
};

// How many times what is read, and what is written, a run may ask for. What is read goes into room
// that is doubled when it is full: that is four times of it at most, for all requests together.
#[derive(Clone, Copy)]
struct Most {
    read: usize,
    written: usize,
    attributes: usize,
}

static LENGTHS: [usize; 3] = [10, 1000, 65_536];

// No read is offered less than this.
const READ_SIZE: usize = 4096;

// Whether the run succeeds, asks for no more, reads as often as it must and writes at once.
fn is_frugal(alloc: Global, words: &[&str], bytes: &[u8], most: Most) -> bool {
    let heap = Refusing::new(alloc, 0);
    let mut input = WeakReader::new(bytes, STRONG);
    let mut output = WeakWriter::new(alloc, STRONG);
    let is_ok = run(&heap, words, &mut input, &mut output).is_ok();
    let read = bytes.len().saturating_mul(most.read);
    let written = output.taken.len().saturating_mul(most.written);
    let attributes = most.attributes.saturating_mul(FOR_EACH_ATTRIBUTE);
    let all = read.saturating_add(written).saturating_add(attributes);
    is_ok
        && heap.asked_bytes() <= all.saturating_add(SMALL) as u64
        && input.calls <= (bytes.len() / READ_SIZE) as u64 + 2
        && output.calls <= 1
        && output.was_only_written()
}

// The bytes that are read, and the bytes of the answer or a bound of it that is reserved: a decoder
// reserves the length of its source, an encoder of strings or bodies twice its answer at most.
const OF_OPERATION: Most = Most {
    read: 5,
    written: 2,
    attributes: 0,
};

#[test]
fn an_operation_asks_for_what_it_reads_and_writes(rt: HostRuntime) -> Result<(), Fail> {
    for &length in &LENGTHS {
        for part in ["a", MIXED] {
            let text = text_of(rt.alloc(), part, length)?;
            for &operation in &OPERATIONS {
                let words = [operation_word(operation)];
                let is_right = is_frugal(rt.alloc(), &words, text.as_bytes(), OF_OPERATION);
                assert!(rt; is_right, "{operation:?} of {length} bytes of {part:?}");
            }
        }
    }
    Ok(())
}

// Words, and how much the run asks for of a text. Lines are appended to room that is doubled.
static OF_TEXTS: [(&[&str], Most); 3] = [
    (
        &["lines-script"],
        Most {
            read: 4,
            written: 4,
            attributes: 0,
        },
    ),
    (
        &["lines-style"],
        Most {
            read: 4,
            written: 4,
            attributes: 0,
        },
    ),
    (
        &["enclose", "encode_safe", "text"],
        Most {
            read: 4,
            written: 1,
            attributes: 0,
        },
    ),
];

#[test]
fn lines_and_enclosings_ask_for_what_they_read_and_write(rt: HostRuntime) -> Result<(), Fail> {
    for &length in &LENGTHS {
        for part in ["a", "a\n", "</script\n", MIXED] {
            let text = text_of(rt.alloc(), part, length)?;
            for &(words, most) in &OF_TEXTS {
                let is_right = is_frugal(rt.alloc(), words, text.as_bytes(), most);
                assert!(rt; is_right, "{words:?} of {length} bytes of {part:?}");
            }
        }
    }
    Ok(())
}

// A page is measured. A form's attributes stand in a list.
const OF_WORDS: Most = Most {
    read: 0,
    written: 1,
    attributes: 0,
};

// Beside the bytes that are read, each value is read once, and the script twice; and then the lines
// are made.
const OF_PAGE: Most = Most {
    read: 12,
    written: 4,
    attributes: 2,
};

#[test]
fn pages_and_forms_ask_for_what_they_read_and_write(rt: HostRuntime) -> Result<(), Fail> {
    for &length in &LENGTHS {
        for part in ["a", MIXED] {
            let text = text_of(rt.alloc(), part, length)?;
            let text = text.as_str();
            let is_right = is_frugal(rt.alloc(), &["page", text, text, text], b"", OF_WORDS);
            assert!(rt; is_right, "page: {length} bytes of {part:?}");
            let form = ["form", text, "a", "s", text, "b", "u", text];
            let most = Most {
                attributes: 2,
                ..OF_WORDS
            };
            let is_right = is_frugal(rt.alloc(), &form, b"", most);
            assert!(rt; is_right, "form: {length} bytes of {part:?}");
            let page = page_of(rt.alloc(), text)?;
            for word in ["read-page", "read-form"] {
                let is_right = is_frugal(rt.alloc(), &[word], page.as_bytes(), OF_PAGE);
                assert!(rt; is_right, "{word}: {length} bytes of {part:?}");
            }
        }
    }
    Ok(())
}

fn page_of(alloc: Global, text: &str) -> Result<String, AllocError> {
    let mut page = String::new(alloc);
    match build_page(text, text, text, &mut page) {
        Ok(_) => {}
        Err(_) => return Err(AllocError),
    }
    Ok(page)
}
