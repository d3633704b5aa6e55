//! What the commands of `psotf` write with: failures and their messages, lines of JSON, texts, files, progress and the
//! budget of a command.
//!
//! Each call is safe and ends.
#![tactic(auto)]

pub mod failure;
pub mod labels;
pub mod limit;
pub mod progress;
pub mod rules;
pub mod saving;
pub mod sheet;
pub mod stopped;
pub mod telling;
pub mod text;
