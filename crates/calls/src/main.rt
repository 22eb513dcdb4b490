//! Calls of the libraries for tests that refuse memory. Hosts in Rattle make them, and no program of this repository
//! does. Each word names some, and they are made in turn. A line says what each answers, as a number, or that memory
//! was refused.
#![tactic(auto)]

mod changes;
mod rows;

use crate::rows::TestRows;
use cs_value::{Fault, NoMemory};
use std::alloc::Global;
use std::process::ExitCode;
use std::{env, io};

/// What is printed of an answer: its number, or 1000 and the number of its refusal.
pub(crate) fn told<E: Fault + Drop>(answer: Result<usize, E>) -> Result<usize, NoMemory> {
    match answer {
        Ok(number) => Ok(number),
        Err(fault) if fault.code() == NoMemory.code() => Err(NoMemory),
        Err(fault) => Ok(1000 + usize::from(fault.code())),
    }
}

/// Makes the calls of a word.
fn answer(alloc: Global, rows: &mut TestRows, word: &str) -> Result<usize, NoMemory> {
    match word {
        "cursor" => told(changes::go_through(alloc)),
        "claim" => told(changes::read_claim(alloc)),
        "copy" => told(changes::copy_groups(alloc)),
        "push" => told(changes::add_entry(alloc)),
        "group" => changes::make_group(alloc),
        "number" => told(changes::number_read(alloc)),
        "concat" => told(changes::join_read(alloc)),
        "merge" => changes::merge_two(alloc),
        "declare" => told(rows.declare(alloc)),
        "insert" => told(rows.insert(alloc)),
        "update" => told(rows.update(alloc)),
        "delete" => told(rows.delete(alloc)),
        "apply" => told(rows.apply(alloc)),
        "list" => told(rows.count(alloc)),
        _ => Ok(0),
    }
}

fn main(rt: HostRuntime) -> io::Result<ExitCode> {
    let words: Vec<String> = env::args(&rt)?.collect(rt.alloc())?;
    let mut rows = TestRows::new(rt.alloc());
    for word in words.iter().skip(1) {
        match answer(rt.alloc(), &mut rows, word.as_str()) {
            Ok(number) => println!(rt; "{number}")?,
            Err(refusal) => println!(rt; "{}", refusal.name())?,
        }
    }
    Ok(ExitCode::SUCCESS)
}
