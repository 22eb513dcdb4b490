//! A service that answers the calls of a stream.
ghost use Rattle.std.specs.Prelude.{◌≡◌, IfOk};
ghost use Rattle.cs_calls_answers.specs.declared.answer.Answer.TheVariants.{Refused as RefusedAnswer};
ghost use Rattle.cs_calls_answers.specs.Spelling.{answer_bytes};
ghost use Rattle.cs_calls.specs.Hosts.{GivesStore};

use crate::answering::answer_call;
use cs_calls_answers::{Answer, Refused};
use cs_calls_conversions::store_refusal;
use cs_calls_executor::bytes_of;
use cs_calls_server::Answering;
use cs_calls_service::Service;
use cs_store::{Store, StoreError};
use cs_value::NoMemory;
use sqlite::Alter;
use std::alloc::Global;
use std::mem;

/// A service that answers calls, or a store that could not be opened, for which each call is refused.
#[derive(Drop)]
pub enum Host<S: Alter> {
    Open(Service<S>),
    Closed(StoreError),
}

/// Returns the bytes of a refusal. Without memory for them there are none.
fn refusal(alloc: Global, why: Refused) -> Result<Vec<u8>, NoMemory>
    ensures { IfOk result (λ bytes. bytes.items ≡ answer_bytes (RefusedAnswer why)) }
{
    match bytes_of(alloc, &Answer::Refused(why)) {
        Ok(bytes) => Ok(bytes),
        Err(_) => Err(NoMemory),
    }
}

impl<S: Alter + Drop> Host<S> {
    /// Returns the store, in which no transaction is open: one that is not committed is rolled back.
    ///
    /// # Errors
    ///
    /// Why the store could not be opened.
    pub fn into_store(self) -> Result<Store<S>, StoreError>
        ensures { GivesStore S.Store self result }
    {
        match self {
            Host::Open(Service::AtRest { store, .. }) => Ok(store),
            Host::Open(Service::InTransaction { transaction, .. }) => Ok(transaction.roll_back()),
            Host::Closed(error) => Err(error),
        }
    }
}

impl<S: Alter + Drop> Answering for Host<S> {
    ghost use Rattle.cs_calls.specs.Hosts.{HostGives};

    ghost gives = { λ old call answer new. HostGives S.Store old call answer new };

    fn answer(&mut self, alloc: Global, call: &[u8]) -> Result<Vec<u8>, NoMemory> {
        match mem::replace(self, Host::Closed(StoreError::NoMemory)) {
            Host::Open(service) => {
                let (service, answer) = answer_call(alloc, service, call);
                *self = Host::Open(service);
                answer
            }
            Host::Closed(error) => {
                *self = Host::Closed(error);
                refusal(alloc, store_refusal(error))
            }
        }
    }
}
