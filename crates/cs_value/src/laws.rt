//! Laws of all spellings. Each function has no effect, and a law as its contract. A caller that needs the law calls
//! the function.
ghost use Rattle.cs_value.specs.Laws.{VarintSpellings, FieldSpellings, RecordSpellings, KeyBytes};

/// No varint begins another's spelling.
pub fn varint_spellings_law()
    ensures { VarintSpellings }
{}

/// No spelling of a field begins another's: bytes that begin with two fields begin with one.
pub fn field_spellings_law()
    ensures { FieldSpellings }
{}

/// No spelling of a record begins that of another of its width.
pub fn record_spellings_law()
    ensures { RecordSpellings }
{}

/// Two keys with the same number of columns have equal bytes only if their values are equal.
pub fn key_bytes_law()
    ensures { KeyBytes }
{}
