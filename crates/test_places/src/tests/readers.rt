//! The readers of places: what stands in a place and where it ends, and refused memory.
use crate::tests::memory::refusals::{Reader, survives};
use crate::tests::readings::{Read, read_in, unread_in};
use hesc_places::{Place, end_of_place, read_place};
use std::alloc::{AllocError, Allocator, Global};
use std::process::Abort;
use test_support::places::PLACES;

#[test]
fn each_place_is_read_up_to_its_mark(rt: HostRuntime) {
    for &place in &PLACES {
        for row in read_in(place) {
            assert!(rt;
                reads(rt.alloc(), place, *row) == Ok(true),
                "{place:?}: {:?}",
                row.0
            );
            assert!(rt;
                end_of_place(place, row.0) == Some(row.2),
                "{place:?}: {:?}",
                row.0
            );
        }
        for bytes in unread_in(place) {
            assert!(rt;
                reads_nothing(rt.alloc(), place, bytes),
                "{place:?}: {bytes:?}"
            );
            assert!(rt;
                end_of_place(place, bytes).is_none(),
                "{place:?}: {bytes:?}"
            );
        }
    }
}

/// Whether memory was found, and then whether the reading is this one.
pub fn reads<A: Allocator>(alloc: A, place: Place, read: Read<'_>) -> Result<bool, AllocError> {
    let (bytes, value, end) = read;
    match read_place(alloc, place, bytes)? {
        Some(found) => Ok(found.value.as_slice() == value && found.end == end),
        None => Ok(false),
    }
}

fn reads_nothing(alloc: Global, place: Place, bytes: &[u8]) -> bool {
    match read_place(alloc, place, bytes) {
        Ok(Some(_)) => false,
        Ok(None) => true,
        Err(AllocError) => false,
    }
}

#[test]
fn every_request_of_a_reader_is_refused_in_turn(rt: HostRuntime) {
    for &place in &PLACES {
        for row in read_in(place) {
            assert!(rt;
                survives_reading(rt.alloc(), place, *row),
                "{place:?}: {:?}",
                row.0
            );
        }
    }
}

/// Whether the answer is Memory where a request is refused, whichever it is, and else the reading.
pub fn survives_reading(alloc: Global, place: Place, read: Read<'_>) -> bool {
    survives(alloc, Reader::Place(place, read))
}
