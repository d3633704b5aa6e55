//! Tests of the port against outside vectors, and the tapes and charstrings that they read. Tests of other crates use the
//! modules `common` and `synthetic`, which are public.
#![tactic(auto)]

#[cfg(test)]
mod char_sets;
#[cfg(test)]
mod checks;
pub mod common;
#[cfg(test)]
mod decimals;
#[cfg(test)]
mod dictionaries;
#[cfg(test)]
mod errors;
#[cfg(test)]
mod flat;
#[cfg(test)]
mod fonts;
#[cfg(test)]
mod hostile;
#[cfg(test)]
mod in_place;
#[cfg(test)]
mod indices;
#[cfg(test)]
mod lenient;
#[cfg(test)]
mod parts;
#[cfg(test)]
mod phrases;
#[cfg(test)]
mod programs;
#[cfg(test)]
mod readings;
#[cfg(test)]
mod sessions;
#[cfg(test)]
mod starts;
pub mod synthetic;
#[cfg(test)]
mod tapes;
