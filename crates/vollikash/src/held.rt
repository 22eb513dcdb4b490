//! What C keeps between calls.

use cs_calls_memory::MemoryHost;
use cs_changegroup::Changegroup;

/// What C keeps between calls: the files of a group, and a store, if one is open.
#[derive(Drop)]
pub struct Held {
    pub(crate) group: Changegroup,
    pub(crate) store: Option<OpenStore>,
}

/// Is compiled only for what can be sent to another thread.
fn expect_send<T: Send>() {}

/// Has no effect. It is compiled only since what C keeps can be sent to another thread.
pub fn send_law() {
    expect_send::<Held>()
}

/// A store, and the answer to its last call.
#[derive(Drop)]
pub struct OpenStore {
    pub(crate) host: MemoryHost,
    pub(crate) answer: Vec<u8>,
}
