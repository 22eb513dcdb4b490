//! What rows of tables are read and written through: exactly a finite map.
ghost use Rattle.std.specs.Prelude.{◌≡◌, IfOk, IfErr, OnOk, IfSome, is_ok};
ghost use Rattle.std.specs.FinMap as map;
ghost use Rattle.cs_value.specs.State.{State, schema_at, row_at, rows_at, with_row, without_row};
ghost use Rattle.cs_rows.specs.Faults.{IsCaused, IsResource, IsReadRefusal};
ghost use Rattle.cs_rows.specs.Rows.{Adds, IsDeclared, Fits, puts_row, removes_row};

use crate::fault::StoreError;
use crate::schema::Schema;
use cs_value::{Key, Row};
use std::alloc::Global;

/// Tables of rows: a finite map from names to schemas, and from names and keys to rows.
///
/// After a refusal nothing is said of what is held, unless the type says it: a batch is then
/// dropped, which takes its store back to where it began. What a crash leaves is kept by each call.
pub trait Rows {
    ghost use Rattle.std.specs.Prelude.{Bool, true};
    ghost use Rattle.cs_rows.specs.declared.fault.Cause.{Cause};
    ghost use Rattle.cs_rows.specs.Rows.{Write};

    // What is held.
    ghost state: { Self → State };

    // What is read is what was written. The clauses speak where it still holds as a call returns.
    ghost is_honest: { Self → Type 0 };

    // What a call keeps, whether it is accepted or refused: what the rows are borrowed from, and what lasts of it. If
    // the rows have answered each call, also this: writes lead from the first rows to the second, and `Is` holds of
    // each with the tables as they are then.
    ghost keeps: { (State → Write → Type 0) → Bool → Self → Self → Type 0 };

    ghost keeps_itself: { (Is : State → Write → Type 0) (b : Self) → keeps Is true b b };

    ghost keeps_then: { (Is : State → Write → Type 0) (accepted : Bool) (a b c : Self) → keeps Is true a b
        → keeps Is accepted b c → keeps Is accepted a c };

    ghost keeps_refused: { (Is : State → Write → Type 0) (accepted : Bool) (a b : Self) → keeps Is true a b
        → keeps Is accepted a b };

    // The map may need what a clause says under `is_honest`.
    ghost keeps_so: { (Is Are : State → Write → Type 0) (accepted : Bool) (a b : Self)
        → ((held : State) (write : Write) → is_honest b → Is held write → Are held write) → keeps Is accepted a b
        → keeps Are accepted a b };

    // A crash leaves these tables and no others.
    ghost leaves_only: { Self → State → Type 0 };

    ghost leaves_still: { (Is : State → Write → Type 0) (accepted : Bool) (a b : Self) (held : State)
        → keeps Is accepted a b → leaves_only a held → leaves_only b held };

    // Between the first rows and the second, what holds them fails for this cause: it cannot be read or written, or it
    // refuses a write, and `Is` holds of that with the tables as they are then.
    ghost fails: { (State → Write → Type 0) → Self → Self → Cause → Type 0 };

    ghost fails_then: { (Is : State → Write → Type 0) (accepted : Bool) (a b c : Self) (cause : Cause)
        → keeps Is true a b → keeps Is accepted b c → is_honest c → fails Is b c cause → fails Is a c cause };

    ghost fails_so: { (Is Are : State → Write → Type 0) (a b : Self) (cause : Cause)
        → ((held : State) (write : Write) → Is held write → Are held write) → fails Is a b cause
        → fails Are a b cause };

    /// The schema of a table, and none where no table has the name.
    fn schema(&mut self, alloc: Global, table: &str) -> Result<Option<Schema>, StoreError>
        ensures found { is_honest self.new → IfOk result (λ o. o ≡ schema_at (state self.old) table.now) }
        ensures same { is_honest self.new → OnOk result (state self.new ≡ state self.old) }
        ensures refused { is_honest self.new → IfErr result IsResource }
        ensures named { IfErr result IsReadRefusal }
        ensures caused { is_honest self.new
            → IfErr result (IsCaused (fails (λ _ _. ⊥) self.old self.new)) }
        ensures was_honest { is_honest self.new → is_honest self.old }
        ensures kept { keeps (λ _ _. ⊥) (is_ok result) self.old self.new };

    /// The row of a declared table under a key, and none where no row has the key.
    fn get(&mut self, alloc: Global, table: &str, key: &Key) -> Result<Option<Row>, StoreError>
        requires { is_honest self.old → IsDeclared (state self.old) table.now }
        ensures found { is_honest self.new → IfOk result (λ o. o ≡ row_at (state self.old) table.now key.now) }
        ensures fits { is_honest self.new → IfOk result (λ o. IfSome o (Fits (state self.old) table.now key.now)) }
        ensures same { is_honest self.new → OnOk result (state self.new ≡ state self.old) }
        ensures refused { is_honest self.new → IfErr result IsResource }
        ensures named { IfErr result IsReadRefusal }
        ensures caused { is_honest self.new
            → IfErr result (IsCaused (fails (λ _ _. ⊥) self.old self.new)) }
        ensures was_honest { is_honest self.new → is_honest self.old }
        ensures kept { keeps (λ _ _. ⊥) (is_ok result) self.old self.new };

    /// Adds the row under its key to a declared table that it fits, and returns whether it does: nothing changes where
    /// a row has the key.
    fn add(&mut self, alloc: Global, table: &str, key: &Key, row: &Row) -> Result<bool, StoreError>
        requires { is_honest self.old → Fits (state self.old) table.now key.now row.now }
        ensures added { is_honest self.new → IfOk result (λ added. Adds (state self.old) table.now key.now row.now added
            (state self.new)) }
        ensures named { IfErr result IsResource }
        ensures caused { is_honest self.new → IfErr result (IsCaused (fails
            (λ held write. (held ≡ state self.old) × (write ≡ puts_row table.now key.now row.now)) self.old self.new)) }
        ensures was_honest { is_honest self.new → is_honest self.old }
        ensures kept { keeps (λ held write. (held ≡ state self.old) × (write ≡ puts_row table.now key.now row.now))
            (is_ok result) self.old self.new };

    /// Puts the row at its key in a declared table that it fits, in place of the row there.
    fn put(&mut self, alloc: Global, table: &str, key: &Key, row: &Row) -> Result<(), StoreError>
        requires { is_honest self.old → Fits (state self.old) table.now key.now row.now }
        ensures set { is_honest self.new → OnOk result (state self.new
            ≡ with_row (state self.old) table.now key.now row.now) }
        ensures named { IfErr result IsResource }
        ensures caused { is_honest self.new → IfErr result (IsCaused (fails
            (λ held write. (held ≡ state self.old) × (write ≡ puts_row table.now key.now row.now)) self.old self.new)) }
        ensures was_honest { is_honest self.new → is_honest self.old }
        ensures kept { keeps (λ held write. (held ≡ state self.old) × (write ≡ puts_row table.now key.now row.now))
            (is_ok result) self.old self.new };

    /// Removes the row under a key of a declared table, if there is one.
    fn remove(&mut self, alloc: Global, table: &str, key: &Key) -> Result<(), StoreError>
        requires { is_honest self.old → IsDeclared (state self.old) table.now }
        ensures removed { is_honest self.new → OnOk result (state self.new
            ≡ without_row (state self.old) table.now key.now) }
        ensures named { IfErr result IsResource }
        ensures caused { is_honest self.new → IfErr result (IsCaused (fails
            (λ held write. (held ≡ state self.old) × (write ≡ removes_row table.now key.now)) self.old self.new)) }
        ensures was_honest { is_honest self.new → is_honest self.old }
        ensures kept { keeps (λ held write. (held ≡ state self.old) × (write ≡ removes_row table.now key.now))
            (is_ok result) self.old self.new };

    /// All rows of a declared table by the bytes of their keys, the smallest first.
    fn list(&mut self, alloc: Global, table: &str) -> Result<Vec<Row>, StoreError>
        requires { is_honest self.old → IsDeclared (state self.old) table.now }
        ensures listed { is_honest self.new → IfOk result (λ rows. rows.items
            ≡ map.values (rows_at (state self.old) table.now)) }
        ensures same { is_honest self.new → OnOk result (state self.new ≡ state self.old) }
        ensures refused { is_honest self.new → IfErr result IsResource }
        ensures named { IfErr result IsReadRefusal }
        ensures caused { is_honest self.new
            → IfErr result (IsCaused (fails (λ _ _. ⊥) self.old self.new)) }
        ensures was_honest { is_honest self.new → is_honest self.old }
        ensures kept { keeps (λ _ _. ⊥) (is_ok result) self.old self.new };
}
