//! The refusals of a store by its database.
ghost use Rattle.std.specs.Prelude.{◌≡◌, ◌↔◌, IsTrue};
ghost use Rattle.cs_rows.specs.Faults.{IsResource};
ghost use Rattle.cs_store_sql.specs.Faults.{not_unique};
ghost use Rattle.cs_store_tables.specs.Refusals.{refusal_of};

use cs_rows::{Cause, StoreError};
use cs_store_sql::RecordsError;
use sqlite::{Error, ErrorCode};
use sqlite_schema::schema::Constraint;

/// Returns the refusal of a store whose records are refused.
pub fn refused(error: RecordsError) -> StoreError
    ensures is { result ≡ refusal_of error }
    ensures resource { IsResource result }
{
    let RecordsError::Database(error) = error else {
        return StoreError::NoMemory;
    };
    let cause = match error {
        Error::SqliteFailure(ErrorCode::DatabaseBusy) => Cause::Busy,
        Error::SqliteFailure(ErrorCode::NotADatabase | ErrorCode::DatabaseCorrupt) => {
            Cause::NotADatabase
        }
        Error::SqliteFailure(ErrorCode::DiskFull) => Cause::Full,
        Error::SqliteFailure(
            ErrorCode::SystemIoFailure | ErrorCode::CannotOpen | ErrorCode::Closed,
        ) => Cause::InputOutput,
        _ => Cause::Other,
    };
    StoreError::StoreFault(cause)
}

/// Whether the database refused a record as one that is not unique.
pub(crate) fn is_not_unique(error: &RecordsError) -> bool
    ensures { IsTrue result ↔ (error.now ≡ not_unique) }
{
    matches!(
        error,
        RecordsError::Database(Error::SqliteFailure(ErrorCode::ConstraintViolation(
            Constraint::Unique
        )))
    )
}
