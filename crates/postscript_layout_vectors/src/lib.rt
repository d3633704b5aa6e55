//! Tests of layout tables that are written for subsets, of whole files with them, and of the characters that a shaper may
//! use.
#![tactic(auto)]

#[cfg(test)]
mod checks;
#[cfg(test)]
mod features;
#[cfg(test)]
mod files;
#[cfg(test)]
mod kern;
#[cfg(test)]
mod languages;
#[cfg(test)]
mod shaping;
#[cfg(test)]
mod upright;
#[cfg(test)]
mod varied;
#[cfg(test)]
mod vertical;
#[cfg(test)]
mod writing;
