//! Tables that are made for a file.
ghost use Rattle.std.specs.Prelude.{◌≡◌};
ghost use Rattle.postscript_instance_file.specs.Refusals.{unmade_by};
ghost use Rattle.postscript_instance_file.specs.declared.made.Unmade.TheVariants as reasons;

use postscript_sfnt_write::{Error, Table};
use std::alloc::{AllocError, AllocFailed, Global};

/// The reason why a table is not made.
#[derive(Drop)]
pub(crate) enum Unmade {
    /// Out of memory.
    Memory,
    /// The `name` table has no space for more names.
    Names,
    /// The table is truncated.
    Cut,
}

/// Converts a failed allocation to `Memory`.
impl From<AllocError> for Unmade {
    ghost from_gives = { λ _ e. e ≡ reasons.Memory };

    fn from(_fault: AllocError) -> Unmade {
        Unmade::Memory
    }
}

/// Converts a failed allocation that returns its value to `Memory`.
impl<T: Drop> From<AllocFailed<T>> for Unmade {
    ghost from_gives = { λ _ e. e ≡ reasons.Memory };

    fn from(_fault: AllocFailed<T>) -> Unmade {
        Unmade::Memory
    }
}

/// Converts an error of a table that is written. It is `Memory` or `Cut`.
impl From<Error> for Unmade {
    ghost from_gives = { λ fault e. e ≡ unmade_by fault };

    fn from(fault: Error) -> Unmade {
        match fault {
            Error::Memory => Unmade::Memory,
            _ => Unmade::Cut,
        }
    }
}

#[derive(Drop)]
struct MadeTable {
    tag: u32,
    bytes: Vec<u8>,
}

/// Tables that are made.
#[derive(Drop)]
pub(crate) struct Made {
    tables: Vec<MadeTable>,
}

impl Made {
    pub(crate) fn new(alloc: Global) -> Made {
        Made {
            tables: Vec::new(alloc),
        }
    }

    /// Adds a table.
    pub(crate) fn put(&mut self, tag: [u8; 4], bytes: Vec<u8>) -> Result<(), AllocError> {
        let tag = u32::from_be_bytes(tag);
        self.tables.push(MadeTable { tag, bytes })?;
        Ok(())
    }

    /// Adds a table, if there is one.
    pub(crate) fn put_if(
        &mut self,
        tag: [u8; 4],
        table: Option<Vec<u8>>,
    ) -> Result<(), AllocError> {
        match table {
            Some(bytes) => self.put(tag, bytes),
            None => Ok(()),
        }
    }

    /// Returns the tables to write.
    pub(crate) fn tables(&self, alloc: Global) -> Result<Vec<Table<'_>>, AllocError> {
        let mut tables = Vec::new(alloc);
        for table in &self.tables {
            tables.push(Table {
                tag: table.tag,
                bytes: table.bytes.as_slice(),
            })?;
        }
        Ok(tables)
    }
}
