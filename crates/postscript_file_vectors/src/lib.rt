//! Tests of the crates over the port, against outside vectors: fonts in place, outlines, fonts written, whole files, and
//! the examples. The small file of these tests is public.
#![tactic(auto)]

#[cfg(test)]
mod accents;
#[cfg(test)]
mod checks;
#[cfg(test)]
mod examples;
#[cfg(test)]
mod files;
#[cfg(test)]
mod outlines;
#[cfg(test)]
mod recipes;
#[cfg(test)]
mod sfnt;
#[cfg(test)]
mod sfnt_write;
pub mod small_file;
#[cfg(test)]
mod views;
#[cfg(test)]
mod writing;
