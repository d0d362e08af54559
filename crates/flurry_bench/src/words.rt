//! The words of the command line.

use crate::measures::Measure;

/// What the words of the command line ask for.
#[derive(Clone, Copy)]
pub struct Words<'w> {
    /// Whether to print the usage alone.
    pub help: bool,
    /// Whether to measure with fewer keys and in fewer rounds.
    pub quick: bool,
    /// Whether to print lines with commas in place of columns.
    pub csv: bool,
    /// The text that the names of the measures must contain.
    pub only: &'w str,
}

pub const USAGE: &str = "usage: bench [--quick] [--only WORD] [--csv]

Measures the maps and prints one table; progress goes to standard error.

  --quick       10,000 keys and 3 rounds, in place of 10,000 and 1,000,000 keys
  --only WORD   the measures whose names contain WORD
  --csv         lines with commas, without the legend";

impl<'w> Words<'w> {
    /// Parses `words`, and returns `None` if one of them is unknown or missing.
    pub fn parse(words: &[&'w str]) -> Option<Words<'w>> {
        let mut found = Words {
            help: false,
            quick: false,
            csv: false,
            only: "",
        };
        let mut is_name = false;
        for word in words {
            match *word {
                name if is_name => {
                    found.only = name;
                    is_name = false;
                }
                "--help" => found.help = true,
                "--quick" => found.quick = true,
                "--csv" => found.csv = true,
                "--only" => is_name = true,
                _ => return None,
            }
        }
        if is_name { None } else { Some(found) }
    }

    /// Returns `true` if the rows of at least one of `measures` are asked for.
    pub fn want(&self, measures: &[Measure]) -> bool {
        measures
            .iter()
            .any(|measure| measure.name().contains(self.only))
    }
}
