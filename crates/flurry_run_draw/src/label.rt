//! Labels, as read from their lines.
ghost use Rattle.std.specs.Prelude.{◌≡◌, ◌++◌};

use std::str;

/// What a step did.
#[derive(Clone, Copy, Debug, PartialEq, Eq)]
pub enum Kind {
    /// A step that does nothing that others see.
    Silent,
    /// A step that moved a bin: the exponent of its table, and the index of the bin.
    Moved(u64, u64),
    /// A step that wiped a bin: the exponent of its table, and the index of the bin.
    Wiped(u64, u64),
    /// A step that made the table with this exponent.
    Made(u64),
    /// A step that published the table with this exponent.
    Published(u64),
    /// The start of a call.
    Begins,
    /// The deciding step of a call.
    Decides,
    /// The step after which a call is done.
    Ends,
    /// Anything else.
    Other,
}

impl Kind {
    /// Returns what the step did whose label is `line`, or [`Kind::Other`] if `line` fits no other variant.
    pub fn of_line(line: &[u8]) -> Self {
        let Ok(text) = str::from_utf8(line) else {
            return Kind::Other;
        };
        let mut words = text.split_whitespace();
        let word = words.next().unwrap_or("");
        let first = number(words.next());
        let second = number(words.next());
        match word {
            "silent" => Kind::Silent,
            "moved" => Kind::Moved(first, second),
            "wipe" => Kind::Wiped(second, number(words.next())),
            "opened" | "placed" => Kind::Made(first),
            "published" => Kind::Published(first),
            "begin" => Kind::Begins,
            "decide" => Kind::Decides,
            "reply" | "end" | "refused" => Kind::Ends,
            _ => Kind::Other,
        }
    }

    /// Returns the exponent of the table that the step is about, or `None` if it is about no table.
    ///
    /// No contract specifies it, because where a picture draws a bin is not part of its text.
    pub fn table(self) -> Option<u64> {
        match self {
            Kind::Moved(table, _)
            | Kind::Wiped(table, _)
            | Kind::Made(table)
            | Kind::Published(table) => Some(table),
            _ => None,
        }
    }

    /// Returns `true` if the step's mark is drawn small, beside other small marks, with its text as a hint.
    ///
    /// No contract specifies it, because the text is the same either way.
    pub fn is_small(self) -> bool {
        matches!(self, Kind::Silent | Kind::Moved(_, _) | Kind::Wiped(_, _))
    }
}

// Parses a word as a number, and returns 0 if it is not one.
fn number(word: Option<&str>) -> u64 {
    match word {
        Some(digits) => digits.parse().unwrap_or(0),
        None => 0,
    }
}

/// Splits a text after its first line feed, and returns the two parts. Without a line feed, the second part is empty.
pub fn split_line(text: &[u8]) -> (&[u8], &[u8])
    ensures { result.0.now ++ result.1.now ≡ text.now }
{
    match text.iter().position(|byte| *byte == b'\n') {
        Some(end) => text.split_at(end + 1),
        None => (text, &[]),
    }
}
