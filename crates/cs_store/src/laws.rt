//! Laws of stores, as functions that do nothing.
ghost use Rattle.cs_store_tables.specs.Store.{MemoryIsHonest};

/// A store in memory reads back what was written, always: what a call says of a store while the disk
/// returns what was written holds of a store in memory without that premise.
pub fn memory_law()
    ensures { MemoryIsHonest }
{}
