//! The parts of a report that are not drawn (docs/report-format.md).
pub mod brought;
pub mod head;
pub mod operations;
pub mod outlines;
pub mod pages;
pub mod parts;
pub mod short;
