//! Tests of the crates of variable fonts, against outside vectors and rows by hand.
#![tactic(auto)]

#[cfg(test)]
mod cff2;
#[cfg(test)]
mod checks;
#[cfg(test)]
mod instance;
#[cfg(test)]
mod small;
#[cfg(test)]
mod variable;
#[cfg(test)]
mod variable_drawing;
#[cfg(test)]
mod variable_font;
#[cfg(test)]
mod variation;
