//! Numbers at an offset, and the limit of a call.
ghost use Rattle.std.specs.Prelude.{◌≡◌, ◌+◌, ◌*◌, ◌^◌, ◌<◌, ◌≤◌, IfErr, OnErr, OnOk, length};
ghost use Rattle.postscript_sequences.specs.Refusals.{Fails};
ghost use Rattle.postscript_sequences.specs.Tables.{number as the_number};

use crate::error::{Error, Result};
use postscript_base::index::number::number_at;

/// Returns the number of some bytes at an offset, or 0 if the table ends before they do.
#[tactic(auto, unfolding(crate::specs::Tables::number))]
pub(crate) fn number(table: &[u8], offset: usize, size: usize) -> usize
    requires size { size ≤ 4 }
    requires low { offset < 2 ^ 40 }
    ensures exact { result ≡ the_number table.now offset size }
    ensures small { result < 2 ^ (8 * size) }
    ensures within { 0 < result → offset + size ≤ length table.now }
{
    if table.len() < offset + size {
        0
    } else {
        number_at(table, offset, size)
    }
}

/// Pays some units from the limit. If there are fewer, nothing of the limit is left.
pub(crate) fn pay(limit: &mut u64, units: usize) -> Result<()>
    ensures spends { limit.new ≤ limit.old }
    ensures exact { OnOk result (limit.new + units ≡ limit.old) }
    ensures lacking { OnErr result (limit.old < units) }
    ensures why { IfErr result (λ e. Fails limit.new e) }
{
    let units = units as u64;
    if *limit < units {
        *limit = 0;
        return Err(Error::TooLong);
    }
    *limit -= units;
    Ok(())
}
