//! Tests of what tests stand on: the judge of `stress`, by histories made by hand, half of which have an order that explains their replies;
//! and the allocator that refuses requests.
#![tactic(auto)]

#[cfg(test)]
mod tests;
