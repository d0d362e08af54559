//! A bin: the entries at one place of a table, in strictly ascending order of hash and key.
//!
//! A bin is a [`ListBin`], a [`TreeBin`], or a [`Bin`], which is the one of the two that fits its size. All three implement the trait
//! [`Ordered`], and their nodes are the same boxes, so a list turns into a tree and back without taking memory.
pub mod adaptive;
pub mod entry;
pub mod list;
pub mod node;
pub mod ordered;
pub(crate) mod removal;
pub mod tree;

pub use adaptive::{Bin, Shape};
pub use entry::Entry;
pub use flurry_base::given::{Given, NotInserted, Replaced};
pub use list::ListBin;
pub use node::{BoxedNode, Node};
pub use ordered::Ordered;
pub use tree::TreeBin;
