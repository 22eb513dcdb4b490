//! The program `changeset-calls`: it answers the calls of a host on the store in a file. Calls come in frames on
//! standard input, and answers go in frames to standard output, as `docs/CALLS.md` has them.
#![tactic(auto)]

use cs_calls::{Ending, Host, Service, serve};
use cs_file_texts::Told;
use cs_store::{Store, StoreError};
use cs_store_memory::open_memory;
use sqlite::{Alter, Unknown};
use std::io::BufReader;
use std::process::ExitCode;
use std::{env, io};

/// The name of a store in memory.
const IN_MEMORY: &str = ":memory:";

/// Serves the calls on standard input, and returns how that ended, and the store or why there is none.
fn serve_store<S: Alter + Drop>(
    rt: &HostRuntime,
    opened: Result<Store<S>, StoreError>,
) -> io::Result<(Ending, Result<Store<S>, StoreError>)> {
    let alloc = rt.alloc();
    let mut host = match opened {
        Ok(store) => Host::Open(Service::new(store)),
        Err(error) => Host::Closed(error),
    };
    let mut input = Told::new(BufReader::new(alloc, rt.stdin())?);
    let ending = serve(alloc, &mut host, &mut input, &mut Told::new(rt.stdout()));
    Ok((ending, host.into_store()))
}

/// Returns the exit status: 0 if the input ended after a call, and the store was closed.
fn status_of(ending: Ending, closed: Result<(), StoreError>) -> u8 {
    u8::from(ending != Ending::Done || closed.is_err())
}

/// Serves the store in a file, and returns the exit status.
fn serve_file(rt: &HostRuntime, path: &str) -> io::Result<u8> {
    let (ending, store) = serve_store(rt, Store::open_from(rt, path, false, Unknown))?;
    let closed = match store {
        Ok(store) => store.close(),
        Err(error) => Err(error),
    };
    Ok(status_of(ending, closed))
}

/// Serves a new store in memory, and returns the exit status.
fn serve_memory(rt: &HostRuntime) -> io::Result<u8> {
    let (ending, store) = serve_store(rt, open_memory(rt.alloc()))?;
    let closed = match store {
        Ok(store) => Ok(drop(store)),
        Err(error) => Err(error),
    };
    Ok(status_of(ending, closed))
}

fn main(rt: HostRuntime) -> io::Result<ExitCode> {
    let words = env::args(&rt)?.collect::<Vec<String>>(rt.alloc())?;
    let status = match words.as_slice() {
        [_, store] if store.as_str() == IN_MEMORY => serve_memory(&rt)?,
        [_, store] => serve_file(&rt, store.as_str())?,
        _ => {
            eprintln!(rt; "usage: changeset-calls STORE")?;
            2
        }
    };
    Ok(ExitCode::from(status))
}
