//! The command line over files in memory.

use crate::{DELETE, INSERT};
use cs_shell::{Folder, MemoryFolder, Told, run_words_in};
use std::process::Abort;

/// A command line, its input, its exit status and what it prints.
type Step = (&'static [&'static str], &'static [u8], u8, &'static [u8]);

/// Command lines in turn, over a file a that has the INSERT.
const STEPS: &[Step] = &[
    (&["changeset", "a", "invert", "b"], b"", 0, b""),
    (
        &["changeset", "s", "shell"],
        b"CREATE TABLE t(a, b, PRIMARY KEY(a));\n",
        0,
        b"",
    ),
    (&["changeset", "a", "apply", "s"], b"", 0, b"applied 1\n"),
    (&["changeset", "b", "apply", "s"], b"", 0, b"applied 1\n"),
    (&["changeset", "b", "apply", "s"], b"", 1, b""),
    (&["changeset", "a", "apply", "s"], b"", 0, b"applied 1\n"),
    (
        &["changeset", "s", "shell"],
        b"SELECT * FROM t;\n",
        0,
        b"1|'x'\n",
    ),
    (&["changeset", "nowhere", "dump"], b"", 1, b""),
];

/// Returns the words of a command line.
fn words_of(rt: &(impl Abort + AllocGlobal), words: &[&str]) -> Vec<String> {
    let mut owned = Vec::new(rt.alloc());
    for word in words {
        let word = String::from_str(rt.alloc(), word).expect(rt, "memory");
        owned.push(word).expect(rt, "memory");
    }
    owned
}

/// Carries out a command line, whose first word is the program's name.
fn run(rt: &(impl Abort + AllocGlobal), folder: &mut MemoryFolder, step: Step) {
    let (words, lines, status, printed) = step;
    let words = words_of(rt, words);
    let mut out = Told::new(Vec::new(rt.alloc()));
    let mut err = Told::new(Vec::new(rt.alloc()));
    let mut input = Told::new(lines);
    let ended = run_words_in(rt.alloc(), folder, &words, &mut input, &mut out, &mut err);
    assert!(rt; ended == status);
    assert!(rt; out.into_inner().as_slice() == printed);
    assert!(rt; err.into_inner().is_empty() == (status == 0));
}

#[test]
fn carries_out_command_lines(rt: HostRuntime) {
    let mut folder = MemoryFolder::new(rt.alloc());
    folder
        .replace(rt.alloc(), "a", INSERT)
        .expect(&rt, "memory");
    for step in STEPS {
        run(&rt, &mut folder, *step);
    }
    let inverse = folder.read(rt.alloc(), "b").expect(&rt, "a file");
    assert!(rt; inverse.as_slice() == DELETE);
}
