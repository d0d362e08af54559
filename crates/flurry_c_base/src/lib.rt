//! What C holds of a map or a set of one owner, and the maps and sets themselves.
//!
//! C holds the address of a map or a set, in a `#[repr(C)]` struct that owns what a `Box` of it owns. `lend` lends what is there for one
//! call. Maps and sets of bytes take slices, and copy what they keep. Walks write pairs and elements into a caller's buffers. `flurry_c`
//! exports functions over these.
#![tactic(auto)]

pub mod byte_map;
pub mod byte_pair;
mod byte_query;
pub mod byte_set;
pub mod byte_set_slot;
pub mod byte_slot;
pub mod bytes;
pub mod copying;
mod crossing;
pub mod held_byte_set;
pub mod held_word_set;
pub mod loose;
pub mod word_map;
pub mod word_pair;
pub mod word_set;
pub mod word_set_slot;
pub mod word_slot;
pub mod words;
