//! Output files that are complete or untouched.
use crate::failure::Failure;
use crate::telling;
use crate::text::Text;
use std::alloc::AllocError;
use std::fs::File;
use std::io::Write;
use std::{fs, io};

/// A file that is written piece by piece, beside its path. It gets its name at the end.
#[derive(Drop)]
pub struct NewFile<'w> {
    path: &'w str,
    beside: String,
    file: File,
}

impl<'w> NewFile<'w> {
    /// Begins a file.
    pub fn create(rt: &HostRuntime, path: &'w str) -> Result<NewFile<'w>, Failure> {
        let beside = format!(in rt.alloc(); "{path}.part")?;
        match File::create(rt, beside.as_str()) {
            Ok(file) => Ok(NewFile { path, beside, file }),
            Err(error) => Err(Failure::of_saving(rt.alloc(), path, error)),
        }
    }

    /// Adds bytes.
    pub fn put(&mut self, rt: &HostRuntime, bytes: &[u8]) -> Result<(), Failure> {
        match self.file.write_all(bytes) {
            Ok(()) => Ok(()),
            Err(error) => Err(Failure::of_saving(rt.alloc(), self.path, error)),
        }
    }

    /// Renames the file. After a failure to write it, the file is removed, and the failure is returned.
    pub fn end(self, rt: &HostRuntime, written: Result<(), Failure>) -> Result<(), Failure> {
        let named = match written {
            Ok(()) => match fs::rename(rt, self.beside.as_str(), self.path) {
                Ok(()) => Ok(()),
                Err(error) => Err(Failure::of_saving(rt.alloc(), self.path, error)),
            },
            Err(failure) => Err(failure),
        };
        if named.is_err() {
            let _ = fs::remove_file(rt, self.beside.as_str());
        }
        named
    }
}

/// Writes a file.
pub fn save(rt: &HostRuntime, path: &str, bytes: &[u8]) -> Result<(), Failure> {
    let mut file = NewFile::create(rt, path)?;
    let written = file.put(rt, bytes);
    file.end(rt, written)
}

/// An output that is written piece by piece: a file, or standard output.
#[derive(Drop)]
pub enum Output<'w> {
    File(NewFile<'w>),
    Standard,
}

impl<'w> Output<'w> {
    /// Begins the output: a file if there is a path, and otherwise standard output.
    pub fn open(rt: &HostRuntime, path: Option<&'w str>) -> Result<Output<'w>, Failure> {
        match path {
            Some(path) => Ok(Output::File(NewFile::create(rt, path)?)),
            None => Ok(Output::Standard),
        }
    }

    /// Adds bytes. `out` is standard output.
    pub fn put<W: Write>(
        &mut self,
        rt: &HostRuntime,
        bytes: &[u8],
        out: &mut W,
    ) -> Result<(), Failure> {
        match self {
            Output::File(file) => file.put(rt, bytes),
            Output::Standard => telling::put(out, bytes),
        }
    }

    /// Adds a text, and clears it. `out` is standard output.
    pub fn take<W: Write>(
        &mut self,
        rt: &HostRuntime,
        text: &mut Text,
        out: &mut W,
    ) -> Result<(), Failure> {
        if text.has_failed() {
            return Err(Failure::from(AllocError));
        }
        self.put(rt, text.as_str().as_bytes(), out)?;
        text.clear();
        Ok(())
    }

    /// Names the file, or removes it after a failure.
    pub fn end(self, rt: &HostRuntime, written: Result<(), Failure>) -> Result<(), Failure> {
        match self {
            Output::File(file) => file.end(rt, written),
            Output::Standard => written,
        }
    }
}

/// Writes bytes to a file if there is a path, and otherwise to standard output.
pub fn put<W: Write>(
    rt: &HostRuntime,
    path: Option<&str>,
    bytes: &[u8],
    out: &mut W,
) -> Result<(), Failure> {
    match path {
        Some(path) => save(rt, path, bytes),
        None => telling::put(out, bytes),
    }
}
