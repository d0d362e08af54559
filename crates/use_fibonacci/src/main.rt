//! Computes Fibonacci numbers, each of them once.
#![tactic(auto)]

mod fibonacci;

use fibonacci::{Numbers, fibonacci};
use flurry::hash::LowHashBuilder;
use flurry::memo::Memo;
use std::io;

fn main(rt: HostRuntime) -> io::Result<()> {
    let memo: Numbers = Memo::with_hasher(rt.alloc(), LowHashBuilder);
    for n in [10u64, 90, 93, 94] {
        match fibonacci(&rt, &memo, n) {
            Some(number) => println!(rt; "{n}: {number}")?,
            None => println!(rt; "{n}: none")?,
        }
    }
    println!(rt; "{} numbers are kept", memo.len(&rt))
}
