//! The examples of README, and of the doc comments of the maps, the sets and their views, run.

mod first;
mod hash_map;
mod hash_map_ref;
mod hash_set;
mod hash_set_ref;
mod seq_map;
mod seq_set;
