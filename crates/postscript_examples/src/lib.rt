//! Examples of use. Each is proved from only the public contracts of the library.
#![tactic(auto)]

pub mod advances;
pub mod dictionaries;
pub mod files;
pub mod flat;
pub mod fonts;
pub mod glyphs;
pub mod own_tapes;
pub mod readers;
pub mod tapes;
