//! Parsing of a line of a schedule.
ghost use Rattle.std.specs.Prelude.{◌≡◌, ◌≢◌, ℕ, ◌<◌, ◌≤◌, ◌^◌, ◌∷◌, ◌++◌, codes, MatchOption};
ghost use Rattle.std.specs.Fmt.{decimal};
ghost use Rattle.flurry_run_lines.specs.Schedules.{line_text, IsLine, IsNoLine, IsNoCall};

use crate::parse::{number, strip, two_numbers};

// The greatest number of steps of a party that one line can ask for.
const MAX_STEPS: u64 = 100_000;

/// A line of a schedule.
///
/// ```
/// match parse_line(line)? {
///     Line::Step(_, steps) => Some(steps),
///     _ => None,
/// }
/// ```
#[derive(Clone, Copy, Debug, PartialEq, Eq)]
pub enum Line {
    /// The line `world P C`.
    World(u64, u64),
    /// The line `begin insert K V`.
    Insert(u64, u64),
    /// The line `begin try K V`.
    Try(u64, u64),
    /// The line `begin get K`.
    Get(u64),
    /// The line `begin remove K`.
    Remove(u64),
    /// The line `begin reserve N`.
    Reserve(u64),
    /// The line `begin clear`.
    Clear,
    /// The line `begin walk`.
    Walk,
    /// The line `begin drop P`.
    Drop(u64),
    /// The line `step P N`.
    Step(u64, u64),
    /// The line `lose P`.
    Lose(u64),
}

/// Parses a line of a schedule, and returns `None` if it is not one.
///
/// Linear in the length of the line.
pub fn parse_line(line: &[u8]) -> Option<Line>
    ensures { MatchOption result (IsNoLine line.now) (λ l. IsLine l × (line.now ≡ line_text l)) }
{
    if let Some(rest) = strip(line, b"begin ") {
        parse_call(rest)
    } else if let Some(rest) = strip(line, b"step ") {
        match party_and_steps(rest) {
            Some((party, steps)) => Some(Line::Step(party, steps)),
            None => None,
        }
    } else if let Some(rest) = strip(line, b"lose ") {
        match number(rest) {
            Some(party) => Some(Line::Lose(party)),
            None => None,
        }
    } else if let Some(rest) = strip(line, b"world ") {
        match two_numbers(rest) {
            Some((processors, capacity)) => Some(Line::World(processors, capacity)),
            None => None,
        }
    } else {
        None
    }
}

// Parses the number of a party and the number of its steps, which is at most `MAX_STEPS`.
fn party_and_steps(words: &[u8]) -> Option<(u64, u64)>
    ensures { MatchOption result ((p n : ℕ) → p < 2 ^ 64 → n ≤ 100000 → words.now ≢ decimal p ++ 32 ∷ decimal n)
        (λ r. (r.0 < 2 ^ 64) × (r.1 ≤ 100000) × (words.now ≡ decimal r.0 ++ 32 ∷ decimal r.1)) }
{
    match two_numbers(words) {
        Some((party, steps)) => {
            if steps > MAX_STEPS {
                return None;
            }
            Some((party, steps))
        }
        None => None,
    }
}

// Parses the words that follow `begin` in a line that begins a call.
fn parse_call(words: &[u8]) -> Option<Line>
    ensures { MatchOption result (IsNoCall words.now) (λ l. IsLine l × (codes "begin " ++ words.now ≡ line_text l)) }
{
    if words == b"clear".as_slice() {
        Some(Line::Clear)
    } else if words == b"walk".as_slice() {
        Some(Line::Walk)
    } else if let Some(rest) = strip(words, b"insert ") {
        match two_numbers(rest) {
            Some((key, value)) => Some(Line::Insert(key, value)),
            None => None,
        }
    } else if let Some(rest) = strip(words, b"try ") {
        match two_numbers(rest) {
            Some((key, value)) => Some(Line::Try(key, value)),
            None => None,
        }
    } else if let Some(rest) = strip(words, b"get ") {
        match number(rest) {
            Some(key) => Some(Line::Get(key)),
            None => None,
        }
    } else if let Some(rest) = strip(words, b"remove ") {
        match number(rest) {
            Some(key) => Some(Line::Remove(key)),
            None => None,
        }
    } else if let Some(rest) = strip(words, b"drop ") {
        match number(rest) {
            Some(party) => Some(Line::Drop(party)),
            None => None,
        }
    } else if let Some(rest) = strip(words, b"reserve ") {
        match number(rest) {
            Some(more) => Some(Line::Reserve(more)),
            None => None,
        }
    } else {
        None
    }
}
