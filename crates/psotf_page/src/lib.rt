//! The HTML page of `psotf report`, apart from its data: the frame, the style and the script.
//!
//! Each call is safe and ends.
#![tactic(auto)]

mod frame;
mod script;
mod style;
mod sum;

use frame::{BEFORE_DATA, BEFORE_SCRIPT, BEFORE_SCRIPT_SUM, BEFORE_STYLE, BEFORE_STYLE_SUM, END};
use script::script;
use std::alloc::{AllocError, Global};
use style::style;
use sum::put_sum;

fn put_texts(page: &mut Vec<u8>, texts: &[&str]) -> Result<(), AllocError> {
    for text in texts {
        page.extend_from_slice(text.as_bytes())?;
    }
    Ok(())
}

/// Adds the page up to the block of JSON.
pub fn begin(alloc: Global, page: &mut Vec<u8>) -> Result<(), AllocError> {
    put_texts(page, &[BEFORE_SCRIPT_SUM])?;
    put_sum(alloc, page, &script())?;
    put_texts(page, &[BEFORE_STYLE_SUM])?;
    put_sum(alloc, page, &[style()])?;
    put_texts(page, &[BEFORE_STYLE, style(), BEFORE_DATA])
}

/// Adds the page after the block of JSON.
pub fn end(page: &mut Vec<u8>) -> Result<(), AllocError> {
    put_texts(page, &[BEFORE_SCRIPT])?;
    put_texts(page, &script())?;
    put_texts(page, &[END])
}
