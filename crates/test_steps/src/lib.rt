//! Tests of hashes, bins and slots, of claim boards, of the control and of the cursor of walks and clears; of single calls in steps, over
//! tables for which memory can fail; of worlds, by schedules that were worked out by hand and by random ones, and of driven calls; and of
//! each request for memory of bins, slots and worlds refused.
#![tactic(auto)]

#[cfg(test)]
mod tests;
