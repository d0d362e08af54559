//! Values that are computed once for a key and kept: with one owner, and shared by threads.

pub use flurry_shared_memo::{Memo, MemoCore};
