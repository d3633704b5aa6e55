//! Texts that are built piece by piece, and their output.
use crate::failure::Failure;
use crate::telling;
pub use postscript_text::Text;
use std::alloc::AllocError;
use std::io::Write;

/// Writes a text and clears it. After a failed allocation it writes only the complete lines, and fails.
pub fn end_in<W: Write>(text: &mut Text, out: &mut W) -> Result<(), Failure> {
    if !text.has_failed() {
        telling::put(out, text.as_str().as_bytes())?;
        text.clear();
        return Ok(());
    }
    if let Some((lines, _)) = text.as_str().rsplit_once('\n') {
        telling::put(out, lines.as_bytes())?;
        telling::put(out, b"\n")?;
    }
    Err(Failure::from(AllocError))
}
