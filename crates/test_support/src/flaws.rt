//! The four forms of `encode_text` with something wrong, which the tests of forms have to refuse.
use hesc_core::rules::Escape;
use hesc_core::{Class, Counter, run};
use html_escape::{
    encode_text, encode_text_minimal, encode_text_minimal_to_string, encode_text_minimal_to_vec,
    encode_text_minimal_to_writer, encode_text_to_string, encode_text_to_vec,
    encode_text_to_writer,
};
use std::alloc::{AllocError, Allocator};
use std::borrow::CowStr;
use std::io::{self, Error, ErrorKind, Write};

/// What is wrong.
#[derive(Clone, Copy, Debug, PartialEq, Eq)]
pub enum Flaw {
    /// Nothing.
    Sound,
    /// Another text is made.
    OtherText,
    /// A text that stays as it is is copied.
    Copies,
    /// Memory is asked for in two steps.
    AsksTwice,
    /// Memory is asked for 64 times the text.
    AsksForMuch,
    /// Room is made for this text alone, so that each append asks for memory.
    GrowsExactly,
    /// Where memory is refused, the output is emptied.
    Empties,
    /// The whole output is answered.
    AnswersAll,
    /// The text is written twice.
    WritesTwice,
    /// The writer is flushed.
    Flushes,
    /// The writer is offered nothing.
    OffersNothing,
    /// A fault of the writer is passed over.
    HidesFaults,
    /// An interrupted write is made again.
    Repeats,
    /// A byte is offered after a fault.
    GoesOn,
    /// The first call's fault is answered by another of its kind.
    OtherFirstFault,
    /// A later call's fault is answered by another of its kind.
    OtherLaterFault,
}

/// The `Cow` form.
pub fn plant<A: Allocator>(flaw: Flaw, alloc: A, text: &str) -> Result<CowStr<'_, A>, AllocError> {
    match flaw {
        Flaw::OtherText => encode_text_minimal(alloc, text),
        Flaw::Copies => in_room_for(alloc, text, 0),
        Flaw::AsksTwice => in_room_for(alloc, text, 1),
        Flaw::AsksForMuch => in_room_for(alloc, text, text.len().saturating_mul(64)),
        _ => encode_text(alloc, text),
    }
}

fn in_room_for<A: Allocator>(
    alloc: A,
    text: &str,
    room: usize,
) -> Result<CowStr<'_, A>, AllocError> {
    let mut made = String::with_capacity(alloc, room)?;
    encode_text_to_string(text, &mut made)?;
    Ok(CowStr::Owned(made))
}

// The length of the encoding, or no length where it passes the greatest `usize`.
fn length_of(text: &str) -> usize {
    let mut counter = Counter::new();
    match run(&Escape(Class::Text), text, &mut counter) {
        Ok(()) => counter.count(),
        Err(_) => 0,
    }
}

/// The string form.
pub fn plant_in_string<'o, A: Allocator>(
    flaw: Flaw,
    text: &str,
    output: &'o mut String<A>,
) -> Result<&'o str, AllocError> {
    match flaw {
        Flaw::OtherText => encode_text_minimal_to_string(text, output),
        Flaw::AsksTwice => {
            output.reserve(1)?;
            encode_text_to_string(text, output)
        }
        Flaw::AsksForMuch => {
            output.reserve(text.len().saturating_mul(64))?;
            encode_text_to_string(text, output)
        }
        Flaw::GrowsExactly => {
            output.reserve_exact(length_of(text))?;
            encode_text_to_string(text, output)
        }
        Flaw::Empties => {
            if output.reserve(length_of(text)).is_err() {
                output.clear();
                return Err(AllocError);
            }
            encode_text_to_string(text, output)
        }
        Flaw::AnswersAll => {
            encode_text_to_string(text, output)?;
            Ok(output.as_str())
        }
        _ => encode_text_to_string(text, output),
    }
}

/// The vector form.
pub fn plant_in_vec<'o, A: Allocator>(
    flaw: Flaw,
    text: &str,
    output: &'o mut Vec<u8, A>,
) -> Result<&'o [u8], AllocError> {
    match flaw {
        Flaw::OtherText => encode_text_minimal_to_vec(text, output),
        Flaw::AsksTwice => {
            output.reserve(1)?;
            encode_text_to_vec(text, output)
        }
        Flaw::AsksForMuch => {
            output.reserve(text.len().saturating_mul(64))?;
            encode_text_to_vec(text, output)
        }
        Flaw::GrowsExactly => {
            output.reserve_exact(length_of(text))?;
            encode_text_to_vec(text, output)
        }
        Flaw::Empties => {
            if output.reserve(length_of(text)).is_err() {
                output.clear();
                return Err(AllocError);
            }
            encode_text_to_vec(text, output)
        }
        Flaw::AnswersAll => {
            encode_text_to_vec(text, output)?;
            Ok(output.as_slice())
        }
        _ => encode_text_to_vec(text, output),
    }
}

/// The writer form.
pub fn plant_in_writer<W: Write>(flaw: Flaw, text: &str, output: &mut W) -> io::Result<()> {
    if flaw == Flaw::OtherText {
        return encode_text_minimal_to_writer(text, output);
    }
    let written = encode_text_to_writer(text, output);
    match written {
        Ok(()) => after_success(flaw, text, output),
        Err(fault) => after_fault(flaw, fault, text, output),
    }
}

fn after_success<W: Write>(flaw: Flaw, text: &str, output: &mut W) -> io::Result<()> {
    match flaw {
        Flaw::WritesTwice => encode_text_to_writer(text, output),
        Flaw::Flushes => output.flush(),
        Flaw::OffersNothing => {
            let _count = output.write(b"")?;
            Ok(())
        }
        _ => Ok(()),
    }
}

fn after_fault<W: Write>(flaw: Flaw, fault: Error, text: &str, output: &mut W) -> io::Result<()> {
    let kind = fault.kind();
    match flaw {
        Flaw::HidesFaults => Ok(()),
        Flaw::Repeats if kind == ErrorKind::Interrupted => encode_text_to_writer(text, output),
        Flaw::GoesOn => {
            let _count = output.write(b"x")?;
            Err(fault)
        }
        Flaw::OtherFirstFault if kind == ErrorKind::BrokenPipe => Err(Error::from(kind)),
        Flaw::OtherLaterFault if kind != ErrorKind::BrokenPipe => Err(Error::from(kind)),
        _ => Err(fault),
    }
}
