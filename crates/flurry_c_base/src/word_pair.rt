//! A pair of numbers.

/// A key and its value.
#[repr(C)]
#[derive(Clone, Copy)]
pub struct WordPair {
    pub key: u64,
    pub value: u64,
}
