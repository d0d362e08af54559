//! Parsing of a line as a command.
ghost use Rattle.std.specs.Prelude.{◌≡◌, ◌≢◌, ℕ, ◌<◌, ◌^◌, List, ◌∷◌, ◌++◌, MatchOption, IsTrue, ◌↔◌};
ghost use Rattle.std.specs.Fmt.{decimal};
ghost use Rattle.flurry_run_lines.specs.Commands.{command_text, IsCommand, IsNoSeqCommand};
ghost use Rattle.flurry_run_lines.specs.Words.{HasNoSpace, IsDigits};

use crate::command::Command;
use std::str;

/// Parses a line as a command, and returns `None` if it is not one.
///
/// Linear in the length of the line.
pub fn parse(line: &[u8]) -> Option<Command>
    ensures { MatchOption result (IsNoSeqCommand line.now) (λ c. IsCommand c × (line.now ≡ command_text c)) }
{
    if line == b"len".as_slice() {
        Some(Command::Len)
    } else if line == b"bins".as_slice() {
        Some(Command::Bins)
    } else if let Some(rest) = strip(line, b"insert ") {
        match two_numbers(rest) {
            Some((key, value)) => Some(Command::Insert(key, value)),
            None => None,
        }
    } else if let Some(rest) = strip(line, b"try ") {
        match two_numbers(rest) {
            Some((key, value)) => Some(Command::Try(key, value)),
            None => None,
        }
    } else if let Some(rest) = strip(line, b"get ") {
        match number(rest) {
            Some(key) => Some(Command::Get(key)),
            None => None,
        }
    } else if let Some(rest) = strip(line, b"remove ") {
        match number(rest) {
            Some(key) => Some(Command::Remove(key)),
            None => None,
        }
    } else {
        None
    }
}

// Returns what follows `front` in `line`, or `None` if `line` does not start with it.
pub(crate) fn strip<'a>(line: &'a [u8], front: &[u8]) -> Option<&'a [u8]>
    ensures { MatchOption result ((rest : List ℕ) → line.now ≢ front.now ++ rest)
        (λ rest. line.now ≡ front.now ++ rest.now) }
{
    line.strip_prefix(front)
}

// Parses two numbers with one space between them.
pub(crate) fn two_numbers(words: &[u8]) -> Option<(u64, u64)>
    ensures { MatchOption result ((k v : ℕ) → k < 2 ^ 64 → v < 2 ^ 64 → words.now ≢ decimal k ++ 32 ∷ decimal v)
        (λ p. (p.0 < 2 ^ 64) × (p.1 < 2 ^ 64) × (words.now ≡ decimal p.0 ++ 32 ∷ decimal p.1)) }
{
    match split_at_space(words) {
        Some((first, second)) => match number(first) {
            Some(key) => match number(second) {
                Some(value) => Some((key, value)),
                None => None,
            },
            None => None,
        },
        None => None,
    }
}

// Returns the parts before and after the first space, or `None` if there is no space.
fn split_at_space(words: &[u8]) -> Option<(&[u8], &[u8])>
    ensures { MatchOption result (HasNoSpace words.now)
        (λ p. HasNoSpace p.0.now × (words.now ≡ p.0.now ++ 32 ∷ p.1.now)) }
{
    for (i, byte) in words.iter().enumerate() {
        if *byte == b' ' {
            return Some((&words[..i], &words[i + 1..]));
        }
    }
    None
}

/// Parses a decimal number of 64 bits, without a sign or leading zeros. Returns `None` if `word` is none.
///
/// Linear in the length of `word`.
pub fn number(word: &[u8]) -> Option<u64>
    ensures { MatchOption result ((n : ℕ) → n < 2 ^ 64 → word.now ≢ decimal n)
        (λ n. (n < 2 ^ 64) × (word.now ≡ decimal n)) }
{
    if word.len() > 1 && word[0] == b'0' {
        return None;
    }
    if !all_digits(word) {
        return None;
    }
    match str::from_utf8(word) {
        Ok(text) => match text.parse() {
            Ok(number) => Some(number),
            Err(_) => None,
        },
        Err(_) => None,
    }
}

// Whether every byte is a digit.
fn all_digits(word: &[u8]) -> bool
    ensures { IsTrue result ↔ IsDigits word.now }
{
    word.iter().all(|byte| *byte >= b'0' && *byte <= b'9')
}
