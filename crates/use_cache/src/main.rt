//! Makes calls on a cache for two pairs, and prints their results.
#![tactic(auto)]

mod cache;

use cache::{Call, run};
use std::io;

fn main(rt: HostRuntime) -> io::Result<()> {
    let calls = [
        Call::Put(1, 10),
        Call::Get(1),
        Call::Put(2, 20),
        Call::Put(1, 11),
        Call::Get(1),
        Call::Put(3, 30),
        Call::Get(1),
        Call::Get(2),
        Call::Get(3),
    ];
    for reply in run(rt.alloc(), 2, &calls)? {
        match reply {
            Some(value) => println!(rt; "{value}")?,
            None => println!(rt; "none")?,
        }
    }
    Ok(())
}
