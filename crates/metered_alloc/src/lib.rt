//! An allocator that meters another one. It numbers the requests for memory, makes those fail that it is told to, and counts the blocks
//! and the bytes that are allocated.
//!
//! Its counts are atomics, which other owners may change at any time, so no contract can specify them. Its calls are proved safe, and what
//! they count is only tested.
#![tactic(auto)]

use std::alloc::{AllocError, Allocator, Global};
use std::sync::atomic::{AtomicU64, Ordering};

// The number of requests that were made, the first and the last of the requests that fail, and the numbers of blocks and of bytes that are
// allocated.
#[derive(Drop)]
struct Budget {
    asked: AtomicU64,
    first: AtomicU64,
    last: AtomicU64,
    blocks: AtomicU64,
    bytes: AtomicU64,
}

impl Budget {
    fn new() -> Budget {
        Budget {
            asked: AtomicU64::new(0),
            first: AtomicU64::new(u64::MAX),
            last: AtomicU64::new(0),
            blocks: AtomicU64::new(0),
            bytes: AtomicU64::new(0),
        }
    }

    fn start(&self, first: u64, last: u64) {
        self.first.store(u64::MAX, Ordering::SeqCst);
        self.last.store(last, Ordering::SeqCst);
        self.asked.store(0, Ordering::SeqCst);
        self.first.store(first, Ordering::SeqCst);
    }

    // Counts a request for `size` bytes, and returns `true` if it is to fail.
    fn refuses(&self, size: usize) -> bool {
        let number = self.asked.fetch_add(1, Ordering::SeqCst);
        let refused = self.first.load(Ordering::SeqCst) <= number
            && number <= self.last.load(Ordering::SeqCst);
        if !refused {
            self.blocks.fetch_add(1, Ordering::SeqCst);
            self.bytes.fetch_add(size as u64, Ordering::SeqCst);
        }
        refused
    }

    // Counts the deallocation of a block of `size` bytes.
    fn takes_back(&self, size: usize) {
        self.blocks.fetch_sub(1, Ordering::SeqCst);
        self.bytes.fetch_sub(size as u64, Ordering::SeqCst);
    }
}

/// An allocator that passes each request on to another one, except for the requests that it makes fail.
///
/// A test passes it by reference: `&MeteredAlloc<Global>` is an allocator too, and is `Copy`.
#[derive(Drop)]
pub struct MeteredAlloc<A: Allocator> {
    inner: A,
    budget: Budget,
}

impl<A: Allocator> MeteredAlloc<A> {
    /// Creates an allocator over `inner`, which makes no request fail until it is told to.
    pub fn new(inner: A) -> MeteredAlloc<A> {
        MeteredAlloc {
            inner,
            budget: Budget::new(),
        }
    }

    /// Counts the requests from 0 again, and from now on makes the request numbered `k` fail, and no other.
    pub fn refuse_at(&self, k: u64) {
        self.budget.start(k, k);
    }

    /// Counts the requests from 0 again, and from now on makes the request numbered `k` and all later requests fail.
    pub fn refuse_from(&self, k: u64) {
        self.budget.start(k, u64::MAX);
    }

    /// Counts the requests from 0 again, and from now on makes no request fail.
    pub fn refuse_nothing(&self) {
        self.budget.start(u64::MAX, 0);
    }

    /// Calls `call` and makes the request numbered `k` fail, counted from 0. Returns the result of `call`, and `true` if it made that
    /// request.
    ///
    /// Afterwards the requests are counted from 0 again, and none fails.
    pub fn refuse_during<T, F: FnOnce() -> T>(&self, k: u64, call: F) -> (T, bool)
        requires { F.pre call }
        ensures { F.post call result.0 }
    {
        self.refuse_at(k);
        let answer = call();
        let refused = self.was_refused();
        self.refuse_nothing();
        (answer, refused)
    }

    /// Returns the number of requests since the count last started from 0.
    pub fn requests(&self) -> u64 {
        self.budget.asked.load(Ordering::SeqCst)
    }

    /// Returns `true` if the allocator has made a request fail since the count last started from 0.
    pub fn was_refused(&self) -> bool {
        self.budget.first.load(Ordering::SeqCst) < self.requests()
    }

    /// Returns the number of blocks that were allocated and not yet deallocated, provided that the inner allocator never fails.
    pub fn live_blocks(&self) -> u64 {
        self.budget.blocks.load(Ordering::SeqCst)
    }

    /// Returns the number of bytes that were requested for the blocks that were allocated and not yet deallocated, provided that the inner
    /// allocator never fails.
    pub fn live_bytes(&self) -> u64 {
        self.budget.bytes.load(Ordering::SeqCst)
    }
}

impl MeteredAlloc<Global> {
    /// Creates an allocator that lives until the end of the process, so that a test need not name a lifetime.
    ///
    /// # Errors
    ///
    /// Returns [`AllocError`] if memory for the allocator itself cannot be allocated.
    pub fn leak(inner: Global) -> Result<&'static MeteredAlloc<Global>, AllocError> {
        let boxed = Box::new(inner, MeteredAlloc::new(inner))?;
        let leaked: &'static MeteredAlloc<Global> = Box::leak(boxed);
        Ok(leaked)
    }
}

unsafe impl<A: Allocator> Allocator for MeteredAlloc<A> {
    ghost dealloc_token = { λ heap ty ptr. A.dealloc_token heap.inner ty ptr };

    fn allocate(&self, size: usize, align: usize) -> Result<*mut u8, AllocError> {
        if self.budget.refuses(size) {
            return Err(AllocError);
        }
        self.inner.allocate(size, align)
    }

    unsafe fn deallocate(&self, ptr: *mut u8, size: usize, align: usize) {
        self.budget.takes_back(size);
        self.inner.deallocate(ptr, size, align);
    }
}
