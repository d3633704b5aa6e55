//! The command `proof`.
use crate::bytes_of;
use psotf_output::failure::Failure;
use psotf_output::telling;
use std::env;
use std::io::Write;
use std::path::PathBuf;

/// Where the file is, from the parent of the program's folder: in an archive, after `make install`, in the Debian package.
const PLACES: [&str; 3] = [
    "PROOF.txt",
    "share/doc/postscript-proved/PROOF.txt",
    "share/doc/psotf/PROOF.txt",
];

/// Returns the parent of the program's folder.
fn prefix(rt: &HostRuntime) -> Result<PathBuf, Failure> {
    let mut path = env::current_exe(rt)?;
    path.pop();
    path.pop();
    Ok(path)
}

/// Returns the bytes of a file below a folder.
fn bytes_below(rt: &HostRuntime, folder: &PathBuf, place: &str) -> Result<Vec<u8>, Failure> {
    let path = folder.join(rt.alloc(), place)?;
    bytes_of(rt, path.as_str())
}

/// Returns the bytes of the first of these files that can be read.
fn read_first(rt: &HostRuntime) -> Result<Vec<u8>, Failure> {
    let folder = prefix(rt)?;
    for place in PLACES {
        if let Ok(bytes) = bytes_below(rt, &folder, place) {
            return Ok(bytes);
        }
    }
    Err(Failure::no_proof())
}

/// Prints how this program was proved: the commit, the toolchain, and the verdict for each crate.
pub fn write<W: Write>(rt: &HostRuntime, out: &mut W) -> Result<(), Failure> {
    let bytes = read_first(rt)?;
    telling::put(out, &bytes)?;
    telling::flush(out)
}
