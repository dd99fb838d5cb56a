//! An allocator that refuses a request, so that a test sees what a call does without memory, and how
//! much it asks for.
use std::alloc::{AllocError, Allocator};
use std::cell::Cell;

/// An allocator that refuses one request of those made to it, counts them, and adds up the bytes that
/// they ask for.
///
/// Every other request goes to the allocator inside. A growth is one request for all that is held
/// then, and so is a shrinking; giving a block back is none. No contract can say what a cell holds,
/// so that the sums are right is tested and not proved.
pub struct Refusing<B: Allocator> {
    inner: B,
    requests: Cell<Requests>,
}

// What was asked for since a number was told.
#[derive(Clone, Copy)]
struct Requests {
    // How many requests are left up to the refused one. Past it the count goes on, and wraps.
    left: u64,
    // How many bytes they asked for together, the refused one included.
    bytes: u64,
}

impl Requests {
    fn up_to(number: u64) -> Requests {
        Requests {
            left: number,
            bytes: 0,
        }
    }
}

impl<B: Allocator> Refusing<B> {
    /// Refuses the request of that number, the first being 1; none where the number is 0.
    pub fn new(inner: B, number: u64) -> Refusing<B> {
        Refusing {
            inner,
            requests: Cell::new(Requests::up_to(number)),
        }
    }

    /// Begins to count anew, and refuses the request of that number from here on.
    pub fn refuse(&self, number: u64) {
        self.requests.set(Requests::up_to(number));
    }

    /// How many requests were made since it was told `number`, the refused one included.
    pub fn asked(&self, number: u64) -> u64 {
        number.wrapping_sub(self.requests.get().left)
    }

    /// How many bytes those requests asked for together, the refused one included.
    pub fn asked_bytes(&self) -> u64 {
        self.requests.get().bytes
    }
}

impl<B: Allocator> Drop for Refusing<B> {
    fn drop(self) {
        let Self {
            inner: _,
            requests: _,
        } = self;
    }
}

// Counts one request for so many bytes, and says whether it is the one to refuse.
fn is_refused(requests: &Cell<Requests>, size: usize) -> bool {
    let Requests { left, bytes } = requests.get();
    requests.set(Requests {
        left: left.wrapping_sub(1),
        bytes: bytes.saturating_add(size as u64),
    });
    left == 1
}

unsafe impl<B: Allocator> Allocator for Refusing<B> {
    ghost dealloc_token = { λ heap ty ptr. B.dealloc_token heap.inner ty ptr };

    fn allocate(&self, size: usize, align: usize) -> Result<*mut u8, AllocError> {
        if is_refused(&self.requests, size) {
            return Err(AllocError);
        }
        self.inner.allocate(size, align)
    }

    unsafe fn deallocate(&self, ptr: *mut u8, size: usize, align: usize) {
        self.inner.deallocate(ptr, size, align);
    }
}
