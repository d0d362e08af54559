//! The lengths of a pair of bytes.

/// The length of a key and that of its value.
#[repr(C)]
#[derive(Clone, Copy)]
pub struct BytePair {
    pub key: usize,
    pub value: usize,
}
