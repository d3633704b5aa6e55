//! The limit of a call.
ghost use Rattle.std.specs.Prelude.{◌≡◌, ◌+◌, ◌<◌, ◌≤◌, OnErr, OnOk, IfErr};
ghost use Rattle.postscript_kern.specs.Refusals.{IsUsedUp};

use crate::error::{Error, Result};

/// Pays one unit from the limit.
pub(crate) fn pay(limit: &mut u64) -> Result<()>
    ensures paid { OnOk result (limit.new + 1 ≡ limit.old) }
    ensures spends { limit.new ≤ limit.old }
    ensures lacking { OnErr result (limit.old < 1) }
    ensures why { IfErr result (λ e. IsUsedUp limit.new e) }
{
    if *limit == 0 {
        return Err(Error::TooLong);
    }
    *limit -= 1;
    Ok(())
}
