//! Why sessions refuse calls, as calls have it.
ghost use Rattle.std.specs.Prelude.{◌≡◌, ◌⊎◌};
ghost use Rattle.cs_calls_answers.specs.Refusals.{out_of_memory};
ghost use Rattle.cs_calls_service.specs.Sessions.{of_attach_fault, of_session_fault};

use cs_calls_answers::Refused;
use cs_calls_conversions::{store_refusal, table_refusal};
use cs_session::SessionFault;
use cs_store::StoreError;
use cs_value::{Fault, Text};
use std::alloc::Global;

/// Returns the refusal of a fault of a session. It names no table.
pub(crate) fn session_refusal(fault: SessionFault) -> Refused
    ensures { result ≡ of_session_fault fault }
{
    match fault {
        SessionFault::Store(error) => store_refusal(error),
        fault => Refused::plain(u64::from(fault.code())),
    }
}

/// Returns why a table is not attached: 50 AlreadyAttached and 31 NoTable with the table, and the others as
/// [`session_refusal`]. It is 60 NoMemory if memory runs out for the name.
pub(crate) fn attach_refusal(alloc: Global, table: &Text, fault: SessionFault) -> Refused
    ensures { (result ≡ of_attach_fault table.now fault) ⊎ (result ≡ out_of_memory) }
{
    match fault {
        SessionFault::AlreadyAttached => table_refusal(alloc, 50, table),
        SessionFault::Store(StoreError::NoTable) => table_refusal(alloc, 31, table),
        fault => session_refusal(fault),
    }
}
