//! What is kept of a table, and the flags of lookups.
ghost use Rattle.std.specs.Prelude.{◌≡◌, ◌+◌, ◌*◌, ◌^◌, ◌<◌, ◌≤◌, ◌++◌, OnOk};
ghost use Rattle.postscript_layout_write.specs.Flags.{set_of, uses_set as the_use};
ghost use Rattle.postscript_layout_write.specs.Scopes.{leaves_out as the_leaving, new_flag as the_flag, mark_set_text};

use crate::numbers::{put_uint16, word};
use std::alloc::AllocError;

/// What is kept of a table: pair adjustments; also marks; or both, with the flags that select classes or sets of marks.
#[derive(Clone, Copy, Debug, Drop, PartialEq, Eq)]
pub(crate) enum Scope {
    Pairs,
    Marks,
    Flags,
}

/// Whether a lookup with a flag is left out.
pub(crate) fn leaves_out(scope: Scope, flag: usize) -> bool
    ensures { result ≡ the_leaving scope flag }
{
    match scope {
        Scope::Pairs => flag > 15,
        Scope::Marks => flag > 15,
        Scope::Flags => false,
    }
}

/// Returns the flag that is written.
pub(crate) fn new_flag(scope: Scope, flag: usize) -> usize
    requires { flag < 65536 }
    ensures exact { result ≡ the_flag scope flag }
    ensures small { result < 65536 }
{
    match scope {
        Scope::Pairs => flag % 16,
        Scope::Marks => flag % 16,
        Scope::Flags => flag,
    }
}

/// Whether a lookup with a flag uses a set of marks.
pub(crate) fn uses_set(flag: usize) -> bool
    ensures { result ≡ the_use flag }
{
    flag / 16 % 2 == 1
}

/// Appends the set of marks of a lookup, if its new flag uses a set.
pub(crate) fn put_set(
    out: &mut Vec<u8>,
    gpos: &[u8],
    lookup: usize,
    flag: usize,
) -> Result<(), AllocError>
    requires near { lookup < 2 ^ 31 }
    ensures text { OnOk result (out.new.items ≡ out.old.items ++ mark_set_text flag (set_of gpos.now lookup)) }
    ensures small { OnOk result (set_of gpos.now lookup < 65536) }
{
    let set = word(gpos, lookup + 6 + word(gpos, lookup + 4) * 2);
    if uses_set(flag) {
        put_uint16(out, set as u16)?;
    }
    Ok(())
}
