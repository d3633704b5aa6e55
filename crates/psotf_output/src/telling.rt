//! Writes to standard error and to the output. These functions keep `io::Error` out of their callers, whose proofs are
//! smaller without it.
use crate::failure::Failure;
use std::fmt::Display;
use std::io::Write;

/// Prints a line on standard error.
pub fn tell<D: Display + Drop>(rt: &HostRuntime, line: D) -> Result<(), Failure> {
    eprintln!(rt; "psotf: {line}")?;
    Ok(())
}

/// Writes bytes to the output.
pub fn put<W: Write>(out: &mut W, bytes: &[u8]) -> Result<(), Failure> {
    out.write_all(bytes)?;
    Ok(())
}

/// Writes what the output holds back.
pub fn flush<W: Write>(out: &mut W) -> Result<(), Failure> {
    out.flush()?;
    Ok(())
}
