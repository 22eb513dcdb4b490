//! What lines ask for.
use cs_apply_engine::{Noop, Policy};
use cs_value::OwnedValue;

/// A column and a value: an assignment or a condition.
#[derive(Debug, Drop)]
pub struct Assignment {
    pub column: String,
    pub value: OwnedValue,
}

/// What a line asks for.
#[derive(Debug, Drop)]
pub enum Command {
    /// `CREATE TABLE name(columns, PRIMARY KEY(keys));`, with `NOT NULL` after each column of `refuses`.
    Create {
        name: String,
        columns: Vec<String>,
        refuses: Vec<bool>,
        keys: Vec<String>,
    },
    /// `INSERT INTO table VALUES(values);`
    Insert {
        table: String,
        values: Vec<OwnedValue>,
    },
    /// `UPDATE table SET column=value, .. WHERE column=value AND ..;`
    Update {
        table: String,
        sets: Vec<Assignment>,
        conditions: Vec<Assignment>,
    },
    /// `DELETE FROM table WHERE column=value AND ..;`
    Delete {
        table: String,
        conditions: Vec<Assignment>,
    },
    /// `SELECT * FROM table;`
    Select {
        table: String,
    },
    /// `.load slot digits`: puts the bytes of the digits into the slot. There may be no digits.
    Load {
        slot: String,
        digits: String,
    },
    /// `.hex slot`: prints the bytes of the slot as digits.
    Hex {
        slot: String,
    },
    /// `.dump slot`: prints the changeset of the slot.
    Dump {
        slot: String,
    },
    /// `.invert from into`: puts the inverse of a slot's changeset into a slot.
    Invert {
        from: String,
        into: String,
    },
    /// `.concat first second into`: puts the concatenation of two slots' changesets into a slot.
    Concat {
        first: String,
        second: String,
        into: String,
    },
    /// `.apply slot data=choice notfound=choice conflict=choice constraint=choice noop=noop`: applies the changeset of
    /// the slot. The options are in any order, each at most once. The default choice is `abort`, the default noop
    /// `report`.
    Apply {
        slot: String,
        policy: Policy,
        noop: Noop,
    },
    /// `.revert slot`: reverts the changeset of the slot.
    Revert {
        slot: String,
    },
    /// `.session open`
    SessionOpen,
    /// `.session attach table`
    SessionAttach {
        table: String,
    },
    /// `.session changeset slot`: puts the changeset of the session into the slot.
    SessionChangeset {
        slot: String,
    },
    /// `.session isempty`
    SessionIsEmpty,
    /// `.session undo`
    SessionUndo,
    /// `.session close`
    SessionClose,
}
