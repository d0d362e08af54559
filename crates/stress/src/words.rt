//! The words of the command line.
ghost use Rattle.std.specs.Prelude.{◌≤◌, IfSome};

/// The hasher of the maps.
#[derive(Clone, Copy, PartialEq, Eq)]
pub enum HasherWord {
    /// The library's default.
    Default,
    /// Each key is its own hash.
    Low,
    /// Each key has the hash 0, so all share a bin.
    Zero,
}

impl HasherWord {
    fn parse(word: &str) -> Option<HasherWord> {
        match word {
            "default" => Some(HasherWord::Default),
            "low" => Some(HasherWord::Low),
            "zero" => Some(HasherWord::Zero),
            _ => None,
        }
    }
}

/// What the words of the command line ask for.
#[derive(Clone, Copy)]
pub struct Words {
    /// Whether to print the usage alone.
    pub help: bool,
    /// The number of rounds, if there is an end to them.
    pub rounds: Option<u64>,
    /// The number of seconds after which no further round starts, if there is one.
    pub seconds: Option<u64>,
    pub seed: u64,
    pub threads: u64,
    /// The number of draws of a thread in a round. Most are one call.
    pub calls: u64,
    /// The number of keys on which most calls are made.
    pub keys: u64,
    pub hasher: HasherWord,
    pub ghost few_threads: { (1 ≤ threads) × (threads ≤ 16) },
    pub ghost few_keys: { (1 ≤ keys) × (keys ≤ 8) },
}

pub const USAGE: &str =
    "usage: stress --rounds N | --seconds N [--seed N] [--threads N] [--calls N] [--keys N] [--hasher NAME]

Makes random calls of a shared map in threads, records them, and judges whether the calls of each key have an order that explains their
replies. Figures that depend on time go to standard error.

  --rounds N     N rounds, each on a new map
  --seconds N    rounds until N seconds have passed
  --seed N       where the random numbers start; 1 if it is not given
  --threads N    1 to 16 threads; 4 if it is not given
  --calls N      1 to 100000 draws a thread and round; 400 if it is not given
  --keys N       1 to 8 keys, on which most calls are made; 3 if it is not given
  --hasher NAME  default, low (a key is its own hash) or zero (each key has the hash 0)";

// Parses a number that must be between two bounds.
fn number(word: &str, least: u64, most: u64) -> Option<u64>
    ensures at_least { IfSome result (λ n. least ≤ n) }
    ensures at_most { IfSome result (λ n. n ≤ most) }
{
    let number: u64 = word.parse().ok()?;
    if least <= number && number <= most {
        Some(number)
    } else {
        None
    }
}

impl Words {
    // Returns what is asked for before any option is read.
    fn of_help(help: bool) -> Words {
        Words {
            help,
            rounds: None,
            seconds: None,
            seed: 1,
            threads: 4,
            calls: 400,
            keys: 3,
            hasher: HasherWord::Default,
        }
    }

    /// Parses `words`, and returns `None` if one of them is unknown, missing or out of its bounds, or if nothing says when to end.
    pub fn parse(words: &[&str]) -> Option<Words> {
        if let ["--help"] = words {
            return Some(Words::of_help(true));
        }
        let mut found = Words::of_help(false);
        for pair in words.chunks(2) {
            let [name, value] = pair else {
                return None;
            };
            found = found.with(name, value)?;
        }
        if found.rounds.is_none() && found.seconds.is_none() {
            return None;
        }
        Some(found)
    }

    /// Returns `true` if no further round starts after `seconds` seconds.
    pub fn is_over(&self, seconds: u64) -> bool {
        match self.seconds {
            Some(most) => seconds >= most,
            None => false,
        }
    }

    // Returns the words with one option set to `value`, or `None` if there is no such option or the value is out of its bounds.
    fn with(self, name: &str, value: &str) -> Option<Words> {
        let mut found = self;
        match name {
            "--rounds" => found.rounds = Some(number(value, 1, u64::MAX)?),
            "--seconds" => found.seconds = Some(number(value, 1, u64::MAX)?),
            "--seed" => found.seed = number(value, 0, u64::MAX)?,
            "--threads" => found.threads = number(value, 1, 16)?,
            "--calls" => found.calls = number(value, 1, 100_000)?,
            "--keys" => found.keys = number(value, 1, 8)?,
            "--hasher" => found.hasher = HasherWord::parse(value)?,
            _ => return None,
        }
        Some(found)
    }
}
