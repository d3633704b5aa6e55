//! Layout features.
ghost use Rattle.std.specs.Prelude.{◌≡◌, ◌⊎◌, ◌↔◌, ◌≤◌, IfOk, IfErr, IsTrue};
ghost use Rattle.postscript_subset.specs.Lookups.{AreNamedBy, HaveKerning, HavePositions};
ghost use Rattle.postscript_subset.specs.Refusals.{IsSearched};

use crate::error::Result;
use postscript_layout::{all_lookups, feature_lookups};
use std::alloc::Global;

/// The tags of the features for which `GPOS` is written: kerning, marks on bases, marks on marks, and cursive attachment.
const KERN: u32 = 0x6b65726e;

const MARK: u32 = 0x6d61726b;

const MKMK: u32 = 0x6d6b6d6b;

const CURS: u32 = 0x63757273;

/// The features whose lookups a subset keeps.
#[derive(Clone, Copy)]
pub enum Features<'t> {
    /// All lookups.
    All,
    /// The lookups of the features with these tags. A tag is a big-endian number of four bytes.
    These(&'t [u32]),
}

impl Features<'_> {
    /// Returns the lookups of a `GSUB` table that these features name.
    pub(crate) fn lookups_in(&self, alloc: Global, gsub: &[u8], limit: &mut u64) -> Result<Vec<u16>>
        ensures exact { IfOk result (λ lookups. AreNamedBy self.now gsub.now lookups.items) }
        ensures spends { limit.new ≤ limit.old }
        ensures why { IfErr result (λ e. IsSearched limit.new e) }
    {
        match self {
            Features::All => Ok(all_lookups(alloc, gsub)?),
            Features::These(tags) => Ok(feature_lookups(alloc, gsub, tags, limit)?),
        }
    }

    /// Returns true if `kern`, `mark`, `mkmk` or `curs` is among the features.
    pub(crate) fn has_positions(&self) -> bool
        ensures { IsTrue result ↔ HavePositions self.now }
    {
        match self {
            Features::All => true,
            Features::These(tags) => {
                (tags.contains(&KERN) || tags.contains(&MARK))
                    || (tags.contains(&MKMK) || tags.contains(&CURS))
            }
        }
    }

    /// Returns true if `kern` is among the features.
    pub(crate) fn has_kerning(&self) -> bool
        ensures { IsTrue result ↔ HaveKerning self.now }
    {
        match self {
            Features::All => true,
            Features::These(tags) => tags.contains(&KERN),
        }
    }
}
