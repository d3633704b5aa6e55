//! The hashes by which a page allows its own script and style.
use base64::engine::general_purpose::STANDARD;
use sha2::{Digest, Sha256};
use std::alloc::{AllocError, Global};

/// Adds the hash of a text, which is given in parts, as `sha256-` and base 64 (Content Security Policy Level 3,
/// "hash-source").
pub fn put_sum(alloc: Global, page: &mut Vec<u8>, parts: &[&str]) -> Result<(), AllocError> {
    let mut sum = Sha256::new();
    for part in parts {
        sum.update(part.as_bytes());
    }
    let text = STANDARD.encode(alloc, &sum.finalize())?;
    page.extend_from_slice(b"sha256-")?;
    page.extend_from_slice(text.as_bytes())
}
