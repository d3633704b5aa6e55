//! Writes OpenType files and tables (ISO/IEC 14496-22).
#![tactic(auto)]

mod checksums;
mod error;
mod file;
mod mapping;
mod metrics;
mod numbers;
mod sequences;

pub use checksums::checksum;
pub use error::{Error, Result};
pub use file::{Table, file_of};
pub use mapping::{Mapping, cmap};
pub use metrics::{Metric, hmtx, with_number_of_glyphs, with_number_of_metrics, without_names};
pub use sequences::with_sequences;
