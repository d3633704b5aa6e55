//! Variations of a font's metrics (OpenType 1.9, "MVAR - Metrics Variations Table").
ghost use Rattle.std.specs.Prelude.{◌≡◌, ◌≢◌, ℕ, ◌+◌, ◌*◌, ◌<◌, ◌≤◌, length, IfErr, IfNone, IfSome, MatchOption, MatchResult};
ghost use Rattle.postscript_base.specs.Index.{number_at as the_number};
ghost use Rattle.postscript_variation.specs.Lent.{IsNamedStore};
ghost use Rattle.postscript_variation.specs.Metrics.{AreRecords, IsFirstRecord, NamesStore, tag_at};
ghost use Rattle.postscript_variation.specs.Refusals.{NoMetrics, NoStore};

use crate::error::{Error, Result};
use crate::store::Store;
use postscript_base::index::number::number_at;

/// The variations of the metrics of a font: an `MVAR` table.
#[derive(Clone, Copy)]
pub struct MetricVariations<'l> {
    bytes: &'l [u8],
    size: usize,
    count: usize,
    store: Option<Store<'l>>,
    ghost small: { size < 65536 },
    ghost least: { 8 ≤ size },
    ghost few: { count < 65536 },
    ghost room: { 12 + count * size ≤ length bytes.now },
}

/// The store at an offset, or none if the offset is 0.
fn named_store(mvar: &[u8], place: usize) -> Result<Option<Store<'_>>>
    ensures exact { MatchResult result
        (λ store. IsNamedStore mvar.now place store)
        (λ e. (list axes regions tables : ℕ) → NamesStore mvar.now place list axes regions tables → ⊥) }
    ensures why { IfErr result (λ e. (0 < place) × NoStore e mvar.now place) }
    ensures each { (e : Error) → 0 < place → NoStore e mvar.now place → result ≡ Err e }
{
    if place == 0 {
        return Ok(None);
    }
    let store = Store::read(mvar, place)?;
    Ok(Some(store))
}

impl<'l> MetricVariations<'l> {
    ghost use Rattle.postscript_variation.specs.LentMetrics.{AreMetricsOf, HasNoMetric, MetricVariesBy};

    /// Reads the metric variations of an `MVAR` table. It succeeds exactly if the records and the store are well
    /// formed.
    ///
    /// # Errors
    ///
    /// - `Cut`: the table, its records or its store is truncated.
    /// - `UnknownFormat`: the major version is not 1, records have fewer than 8 bytes, or the format of the store is
    ///   not 1.
    pub fn read(mvar: &'l [u8]) -> Result<MetricVariations<'l>>
        // Succeeds exactly if the records and the store are well formed, and gives these.
        ensures exact { MatchResult result
            (λ metrics. AreMetricsOf mvar.now metrics)
            (λ e. (size count list axes regions tables : ℕ) → AreRecords mvar.now size count
            → NamesStore mvar.now (the_number mvar.now 10 2) list axes regions tables → ⊥) }
        // An error is justified: `Cut` by truncation, `UnknownFormat` by version, size or store.
        ensures why { IfErr result (λ e. NoMetrics e mvar.now) }
        // Conversely, if one of these causes is present, exactly that error is returned.
        ensures each { (e : Error) → NoMetrics e mvar.now → result ≡ Err e }
    {
        if mvar.len() < 12 {
            return Err(Error::Cut);
        }
        let size = number_at(mvar, 6, 2);
        if number_at(mvar, 0, 2) != 1 || size < 8 {
            return Err(Error::UnknownFormat);
        }
        let count = number_at(mvar, 8, 2);
        if mvar.len() - 12 < count * size {
            return Err(Error::Cut);
        }
        let store = named_store(mvar, number_at(mvar, 10, 2))?;
        Ok(MetricVariations {
            bytes: mvar,
            size,
            count,
            store,
        })
    }

    /// The first record of a tag.
    fn record_of(&self, tag: usize) -> Option<usize>
        ensures found { IfSome result (λ i. IsFirstRecord self.now.bytes.now self.now.size self.now.count tag i) }
        ensures none { IfNone result ((i : ℕ) → i < self.now.count → tag_at self.now.bytes.now self.now.size i ≢ tag) }
    {
        for i in 0..self.count {
            if number_at(self.bytes, 12 + i * self.size, 4) == tag {
                return Some(i);
            }
        }
        None
    }

    /// Returns the variation of a metric, in units of 2 ^ -16.
    ///
    /// `tag` is the big-endian number of its four characters. If several records have the tag, the first one counts.
    /// `coordinates` are normalized coordinates in units of 2 ^ -14, one for each axis.
    ///
    /// Returns `None` if the table has no record, no store or no delta set for the metric.
    #[tactic(auto, using(crate::proofs::Tags::varied, crate::proofs::Tags::unnamed, crate::proofs::Tags::storeless))]
    pub fn variation(&self, tag: u32, coordinates: &[i16]) -> Option<i64>
        // The exact sum of the metric's delta set, or `None` exactly if the table has none for it.
        ensures { MatchOption result (HasNoMetric self.now tag) (λ total. MetricVariesBy self.now tag coordinates.now total) }
    {
        let i = self.record_of(tag as usize)?;
        let store = self.store?;
        let place = 12 + i * self.size;
        store.variation(
            number_at(self.bytes, place + 4, 2),
            number_at(self.bytes, place + 6, 2),
            coordinates,
        )
    }
}
