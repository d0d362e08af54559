//! Runs the program with the words of its command line, over standard input and standard output, and exits with its status.
#![tactic(auto)]

use flurry_run_words::{Input, Output, exit_code, run_words};
use std::process::ExitCode;
use std::{env, io};

fn main(rt: HostRuntime) -> io::Result<ExitCode> {
    let args: Vec<String> = match env::args(&rt) {
        Ok(args) => args.skip(1).collect(rt.alloc())?,
        // If a word is not text, the program runs without words.
        Err(error) if error.kind() == io::ErrorKind::InvalidData => Vec::new(rt.alloc()),
        Err(error) => return Err(error),
    };
    let words: Vec<&str> = args.iter().map(|word| word.as_str()).collect(rt.alloc())?;
    let mut reader = Input::new(rt.alloc(), rt.reader())?;
    let mut writer = Output::new(rt.alloc(), io::writer(&rt))?;
    let status = run_words(&rt, rt.alloc(), &words, &mut reader, &mut writer);
    Ok(exit_code(status))
}
