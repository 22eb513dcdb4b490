//! Values, fields, rows, images and keys of SQLite changesets, and their bytes.
//!
//! A value is an integer of 64 bits, a text, a blob or NULL. A field is a value or undefined. The bytes are those of
//! the comment "record format" of SQLite's `ext/session/sqlite3session.c`, without real numbers, and with the shortest
//! varints only.
//!
//! ```rust
//! let (field, used) = field_read(&[0x03, 0x01, 0x78])?;
//! assert_eq!(rt; field, Field::Defined(Value::Text("x")));
//! assert_eq!(rt; used, 3);
//! ```
//!
//! `value` has the values, `text` and `bytes` their contents, `varint` the numbers of the format, and `field` the
//! reader and the writer of fields. `row` has lists of values, `image` lists of fields, and `parts` what both are made
//! of. `key` has the keys of rows, `name` the names of tables, `fault` and `refusal` the reasons why calls fail, and
//! `laws` the laws of all spellings.
#![tactic(auto)]

mod bytes;
mod fault;
mod field;
mod image;
mod key;
mod laws;
mod name;
mod parts;
mod refusal;
mod row;
mod text;
mod value;
mod varint;

pub use bytes::Bytes;
pub use fault::{FieldFault, FieldFaultKind, ImageFault};
pub use field::{field_read, field_write};
pub use image::{Image, image_read, image_write};
pub use key::Key;
pub use laws::{field_spellings_law, key_bytes_law, record_spellings_law, varint_spellings_law};
pub use name::is_table_name;
pub use refusal::{Fault, NoMemory, OrNoMemory};
pub use row::{Row, row_write};
pub use text::Text;
pub use value::{Field, OwnedField, OwnedValue, Value};
pub use varint::{varint_len, varint_read, varint_write};

/// The most bytes of a text or a blob of a changeset. SQLite writes their count as a varint of 31 bits.
pub const MAX_CONTENT_LEN: usize = 2_147_483_647;

/// The most columns of a table. SQLite cannot be built with more.
pub const MAX_COLUMNS: usize = 32_767;
