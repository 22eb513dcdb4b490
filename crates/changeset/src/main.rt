//! The `changeset` command: its words and standard streams, handed to the library.
#![tactic(auto)]

mod prompt;

use crate::prompt::{Prompted, is_typed};
use cs_shell::{Told, print_usage, run_words};
use std::io::ErrorKind;
use std::process::ExitCode;
use std::{env, io};

/// The words of the command line, the program's name first.
fn words(rt: &HostRuntime) -> io::Result<Vec<String>> {
    Ok(env::args(rt)?.collect(rt.alloc())?)
}

fn main(rt: HostRuntime) -> io::Result<ExitCode> {
    let mut err = Told::new(rt.stderr());
    let mut input = Told::new(Prompted::new(rt.stdin(), rt.stderr(), is_typed(&rt)));
    let status = match words(&rt) {
        Ok(words) => run_words(
            &rt,
            &words,
            &mut input,
            &mut Told::new(rt.stdout()),
            &mut err,
        ),
        Err(error) if error.kind() == ErrorKind::OutOfMemory => {
            eprintln!(rt; "error 60 NoMemory")?;
            1
        }
        // A word is not UTF-8.
        Err(_) => print_usage(&mut err),
    };
    Ok(ExitCode::from(status))
}
