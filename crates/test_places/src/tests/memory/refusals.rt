//! Every request of a reader is refused in turn; and readers that take a refusal for something else,
//! which have to be refused themselves.
use crate::tests::markup::{forms, pages};
use crate::tests::readers;
use crate::tests::readings::Read;
use hesc_places::Place;
use std::alloc::{AllocError, Allocator, Global};
use std::process::Abort;
use test_support::Refusing;

/// What is read, and what its reading has to be.
#[derive(Clone, Copy)]
pub enum Reader<'r> {
    Place(Place, Read<'r>),
    Page(&'r str),
    Form(forms::Row),
    /// Three requests, and what is made of a refusal.
    Planted(Flaw),
}

/// What is wrong with a reader.
#[derive(Clone, Copy, Debug, PartialEq, Eq)]
pub enum Flaw {
    /// Nothing.
    Sound,
    /// A refusal of the first request is answered as no reading.
    FirstIsNothing,
    /// A refusal of a later request is answered as no reading.
    LaterIsNothing,
    /// A refusal of a later request is passed over.
    LaterIsHidden,
    /// There is no reading, though memory is found.
    ReadsNothing,
    /// Memory is refused by itself.
    GivesUp,
}

// Whether memory was found, and then whether the reading is the right one.
fn reads<A: Allocator + Clone>(alloc: A, reader: Reader<'_>) -> Result<bool, AllocError> {
    match reader {
        Reader::Place(place, read) => readers::reads(alloc, place, read),
        Reader::Page(page) => pages::reads_back(alloc, page),
        Reader::Form(row) => forms::reads_back(alloc, row),
        Reader::Planted(flaw) => reads_wrongly(flaw, alloc),
    }
}

fn reads_wrongly<A: Allocator + Clone>(flaw: Flaw, alloc: A) -> Result<bool, AllocError> {
    let first = asks(alloc.clone()?);
    if first.is_err() && flaw == Flaw::FirstIsNothing {
        return Ok(false);
    }
    first?;
    for _ in 0..2 {
        let later = asks(alloc.clone()?);
        if later.is_err() && flaw == Flaw::LaterIsNothing {
            return Ok(false);
        }
        if flaw != Flaw::LaterIsHidden {
            later?;
        }
    }
    match flaw {
        Flaw::ReadsNothing => Ok(false),
        Flaw::GivesUp => Err(AllocError),
        _ => Ok(true),
    }
}

fn asks<A: Allocator>(alloc: A) -> Result<(), AllocError> {
    let _bytes: Vec<u8, A> = Vec::with_capacity(alloc, 8)?;
    Ok(())
}

// More requests than a reading makes.
const REQUESTS: u64 = 64;

/// Whether the answer is Memory where a request is refused, whichever it is, and else the reading.
pub fn survives(alloc: Global, reader: Reader<'_>) -> bool {
    for number in 1..=REQUESTS {
        let heap = Refusing::new(alloc, number);
        let answer = reads(&heap, reader);
        if heap.asked(number) < number {
            return answer == Ok(true);
        }
        if answer.is_ok() {
            return false;
        }
    }
    false
}

static FLAWS: [Flaw; 5] = [
    Flaw::FirstIsNothing,
    Flaw::LaterIsNothing,
    Flaw::LaterIsHidden,
    Flaw::ReadsNothing,
    Flaw::GivesUp,
];

#[test]
fn each_flaw_of_a_reader_is_refused(rt: HostRuntime) {
    assert!(rt; survives(rt.alloc(), Reader::Planted(Flaw::Sound)));
    for &flaw in &FLAWS {
        assert!(rt; !survives(rt.alloc(), Reader::Planted(flaw)), "{flaw:?}");
    }
}
