//! Subtables as they are written.
ghost use Rattle.std.specs.Prelude.{◌≡◌, ◌^◌, ◌*◌, ◌<◌, ◌≤◌, ◌++◌, length, flat_map, IfErr, IfOk, OnOk};
ghost use Rattle.postscript_kern.specs.Written.{IsSelector, PutsSubtable, pair_text as the_pair};
ghost use Rattle.postscript_kern.specs.declared.error.Error.TheVariants as errors;

use crate::error::Result;
use crate::numbers::put_words;
use crate::pairs::Pairs;
use std::alloc::AllocError;

/// Returns the greatest power of two that is at most a number, and its logarithm.
fn power_within(count: usize) -> (usize, usize)
    requires some { 0 < count }
    requires few { count ≤ 10920 }
    ensures exact { IsSelector count result.1 }
    ensures power { result.0 ≡ 2 ^ result.1 }
    ensures least { result.0 ≤ count }
    ensures small { result.1 < 14 }
{
    let mut power = 1;
    let mut selector = 0;
    while power * 2 <= count {
        power *= 2;
        selector += 1;
    }
    (power, selector)
}

/// Appends pairs with their values.
fn put_pairs(out: &mut Vec<u8>, pairs: &Pairs) -> std::result::Result<(), AllocError>
    ensures { OnOk result (out.new.items ≡ out.old.items ++ flat_map the_pair pairs.now.entries) }
{
    for (pair, value) in pairs {
        out.extend_from_slice(&pair.to_be_bytes())?;
        out.extend_from_slice(&value.to_be_bytes())?;
    }
    Ok(())
}

/// Appends a subtable of some pairs.
pub(crate) fn put_subtable(out: &mut Vec<u8>, coverage: u16, pairs: &Pairs) -> Result<()>
    requires some { 0 < length pairs.now.entries }
    requires few { length pairs.now.entries ≤ 10920 }
    ensures put { OnOk result (PutsSubtable coverage pairs.now.entries out.old.items out.new.items) }
    ensures memory { IfErr result (λ e. e ≡ errors.Memory) }
{
    let count = pairs.len();
    let (power, selector) = power_within(count);
    let head = [
        0,
        (14 + count * 6) as u16,
        coverage,
        count as u16,
        (power * 6) as u16,
        selector as u16,
        ((count - power) * 6) as u16,
    ];
    put_words(out, &head)?;
    put_pairs(out, pairs)?;
    Ok(())
}
