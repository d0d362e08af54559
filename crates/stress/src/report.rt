//! What is printed at the end.
ghost use Rattle.std.specs.Prelude.{◌≡◌, ◌≤◌, ◌↔◌, true, false};

use crate::rounds::{Figures, Found};
use std::io;
use stress_judge::calls::Event;

/// Returns the exit status of a run: 1 if it found calls that no order explains, 3 if it found none and could not judge all of them, and
/// otherwise 0.
pub fn status(not_judged: u64, has_fault: bool) -> u8
    ensures fault { (result ≡ 1) ↔ (has_fault ≡ true) }
    ensures clean { result ≡ 0 → (has_fault ≡ false) × (not_judged ≡ 0) }
{
    if has_fault {
        1
    } else if not_judged > 0 {
        3
    } else {
        0
    }
}

/// Prints the figures that depend on time to standard error.
///
/// # Errors
///
/// Returns an error if standard error cannot be written.
pub fn print_times<R: Eprint>(rt: &R, figures: Figures) -> io::Result<()> {
    let (most, seconds) = (figures.most_open, figures.seconds);
    eprintln!(rt; "stress: at most {most} calls of one key at the same time; {seconds} seconds")
}

/// Prints the figures, and that each history has an order.
///
/// # Errors
///
/// Returns an error if standard output cannot be written.
pub fn print_figures<R: Print>(rt: &R, figures: Figures) -> io::Result<()> {
    let (rounds, calls, not_judged) = (figures.rounds, figures.calls, figures.not_judged);
    println!(rt; "rounds  {rounds}")?;
    println!(rt; "calls   {calls}")?;
    if not_judged > 0 {
        println!(rt; "{not_judged} histories were not judged; each other history is linearizable")
    } else {
        println!(rt; "each history is linearizable")
    }
}

/// Prints calls of one key that no order explains.
///
/// # Errors
///
/// Returns an error if standard output cannot be written.
pub fn print_fault<R: Print>(rt: &R, found: &Found) -> io::Result<()> {
    let (round, until) = (found.round, found.fault.until);
    println!(rt; "not linearizable: calls of one key in round {round}")?;
    match found.fault.first {
        Some(value) => println!(rt; "  the key has the value {value}, and then")?,
        None => println!(rt; "  the key is absent, and then")?,
    }
    print_events(rt, &found.fault.events)?;
    println!(rt; "  no order of these explains the replies up to {until}")?;
    if found.writers.is_empty() {
        return Ok(());
    }
    println!(rt; "  their values were written by")?;
    print_events(rt, &found.writers)
}

fn print_events<R: Print>(rt: &R, events: &[Event]) -> io::Result<()> {
    for event in events {
        println!(rt; "  {event}")?;
    }
    Ok(())
}
