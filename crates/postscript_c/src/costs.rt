//! The cost of a location.
ghost use Rattle.std.specs.Prelude.{◌≡◌, ◌<◌, ℕ, MatchBool, IfErr, IfOk};
ghost use Rattle.postscript_c.specs.Costs.{CostsBeyond, CostsWithin};
ghost use Rattle.postscript_variation.specs.Lent.{HasNoTable, IsDataIn, table_count};
ghost use Rattle.postscript_variation.specs.declared.store.Data.{Data};

use postscript_variation::Store;

/// Whether the scalars of a location are computed within a limit. The error is the number of the first missing item
/// variation data.
#[tactic(auto, using(crate::proofs::Costing::before))]
pub(crate) fn is_within(store: &Store<'_>, limit: u64) -> Result<bool, usize>
    ensures found { IfOk result (λ is. MatchBool is (CostsWithin store.now limit) (CostsBeyond store.now limit)) }
    ensures lacks { IfErr result (λ number. HasNoTable store.now number) }
    ensures there { IfErr result (λ number. number < table_count store.now) }
    ensures before { IfErr result (λ number. (n : ℕ) → n < number → (table : Data) × IsDataIn store.now n table) }
{
    let each = store.regions().axes() as u128 + 1;
    let mut left = limit as u128;
    for number in 0..store.len() {
        let Some(table) = store.table(number) else {
            return Err(number);
        };
        let cost = table.len() as u128 * each;
        if left < cost {
            return Ok(false);
        }
        left -= cost;
    }
    Ok(true)
}
