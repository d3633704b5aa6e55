//! Writes the vertical metrics and the vertical origins of the glyphs of a subset, which have new numbers (OpenType 1.9,
//! "vhea - Vertical Header Table", "vmtx - Vertical Metrics Table" and "VORG - Vertical Origin Table").
//!
//! It is proved that each new glyph has the advance height and the top side bearing of its origin, which is an old glyph
//! (`KeepsMetrics` in specs/Metrics.antt), and the y coordinate of its vertical origin (`KeepsOrigins` in
//! specs/Origins.antt).
//!
//! What is left out:
//!
//! - A top side bearing past the end of the `vmtx` table is 0, as HarfBuzz reads it.
//! - A `VORG` table whose records are not in ascending order is not written, since readers may find other records in it.
//! - The new tables are not made smaller: each glyph has its own advance height, also if all are equal. A glyph whose
//!   record has the default y coordinate keeps the record.
#![tactic(auto)]

mod error;
mod metrics;
mod numbers;
mod origins;

pub use error::{Error, Result};
pub use metrics::kept_metrics;
pub use origins::kept_origins;
