//! Interns texts, of which equal ones are kept once.
#![tactic(auto)]

mod interner;

use interner::Interner;
use std::io;
use std::sync::Arc;

fn main(rt: HostRuntime) -> io::Result<()> {
    let mut interner = Interner::new(rt.alloc());
    let mut words = Vec::new(rt.alloc());
    for word in ["one", "two", "one", "red", "two", "one"] {
        words.push(interner.intern(word)?)?;
    }
    for word in &words {
        // The interner is an owner too.
        let owners = Arc::strong_count(word);
        println!(rt; "{}: {owners} owners", word.as_str())?;
    }
    println!(rt; "{} texts for {} words", interner.len(), words.len())
}
