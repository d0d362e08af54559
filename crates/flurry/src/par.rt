//! Calls that several threads do together: owned maps and sets built from a list or extended by one, and shared ones extended by one.

pub use flurry_seq_par::map::{
    from_par_list as seq_map_from_list, join as join_seq_maps, par_extend as extend_seq_map,
};
pub use flurry_seq_par::set::{from_par_list as seq_set_from_list, par_extend as extend_seq_set};
pub use flurry_shared_par::MAX_WORKERS;
pub use flurry_shared_par::map::par_extend as extend_map;
pub use flurry_shared_par::map_ref::par_extend as extend_map_ref;
pub use flurry_shared_par::set::par_extend as extend_set;
pub use flurry_shared_par::set_ref::par_extend as extend_set_ref;
