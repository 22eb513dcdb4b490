//! The stores in the files of the machine.

use crate::visiting::{StoreFolder, Visitor};
use cs_folder::HostFolder;
use cs_store::{Store, StoreError};
use sqlite::Unknown;
use std::alloc::Global;

impl StoreFolder for HostFolder<'_> {
    fn visit_store<V: Visitor>(
        &mut self,
        alloc: Global,
        name: &str,
        visitor: &mut V,
    ) -> Result<Result<(), StoreError>, StoreError> {
        let mut store = Store::open_from(self.runtime(), name, false, Unknown)?;
        visitor.visit(alloc, &mut store);
        Ok(store.close())
    }
}
