//! Adds lines of numbers, and finds the class of a line.
ghost use Rattle.std.specs.Prelude.{◌≡◌, ◌+◌, ◌*◌, ◌<◌, ◌≤◌, ℕ, [], true, length, slice_index, IfErr, IfOk, IfSome, OnOk};
ghost use Rattle.postscript_layout_write.specs.Lines.{AddsLine, IsLine};
ghost use Rattle.postscript_layout_write.specs.declared.error.Error.TheVariants as errors;

use crate::error::Result;
use crate::lines::Lines;
use std::alloc::Global;

/// The most classes. Others make the lines too many.
const MOST: usize = 512;

/// The most numbers of a line.
const WIDEST: usize = 8192;

/// Returns a number that equal lines share.
fn key_of(line: &[u16]) -> u64 {
    let mut key: u64 = 0;
    for number in line {
        key = key.wrapping_mul(1_000_003).wrapping_add(u64::from(*number));
    }
    key
}

impl Lines {
    /// Returns no lines. Lines that are too wide are too many.
    pub(crate) fn new(alloc: Global, width: usize) -> Result<Lines>
        ensures none { IfOk result (λ lines. lines.classes.items ≡ []) }
        ensures width { IfOk result (λ lines. lines.is_open ≡ true → lines.width ≡ width) }
        ensures memory { IfErr result (λ e. e ≡ errors.Memory) }
    {
        let is_open = width <= WIDEST;
        let width = if is_open { width } else { 0 };
        let cells: Vec<u16> = vec![in alloc; 0; width]?;
        let mut keys = Vec::new(alloc);
        keys.push(0)?;
        Ok(Lines {
            width,
            keys,
            cells,
            classes: Vec::new(alloc),
            is_open,
        })
    }

    /// Whether a class has a line.
    fn has_line(&self, class: usize, line: &[u16]) -> bool
        requires open { self.now.is_open ≡ true }
        requires class { class < length self.now.keys.items }
        requires width { length line.now ≡ self.now.width }
        ensures { result ≡ true → IsLine self.now.cells.items self.now.width class (λ k. slice_index line.now k) }
    {
        let start = class * self.width;
        for k in 0..self.width {
            if self.cells[start + k] != line[k] {
                return false;
            }
        }
        true
    }

    /// Returns the class of a line.
    fn find(&self, line: &[u16], key: u64) -> Option<usize>
        requires open { self.now.is_open ≡ true }
        requires width { length line.now ≡ self.now.width }
        ensures { IfSome result (λ class. (class < length self.now.keys.items) × IsLine self.now.cells.items self.now.width class (λ k. slice_index line.now k)) }
    {
        for class in 0..self.keys.len() {
            if self.keys[class] == key {
                return if self.has_line(class, line) {
                    Some(class)
                } else {
                    None
                };
            }
        }
        None
    }

    /// Adds a line with its class.
    fn put(&mut self, line: &[u16], key: u64) -> Result<()>
        requires open { self.old.is_open ≡ true }
        requires few { length self.old.keys.items < 512 }
        requires width { length line.now ≡ self.old.width }
        ensures added { OnOk result (AddsLine (λ k. slice_index line.now k) self.old self.new) }
        ensures open { OnOk result (self.new.is_open ≡ true) }
        ensures memory { IfErr result (λ e. e ≡ errors.Memory) }
    {
        let class = self.keys.len();
        self.is_open = false;
        self.keys.push(key)?;
        self.cells.extend_from_slice(line)?;
        self.classes.push(class as u16)?;
        self.is_open = true;
        Ok(())
    }

    /// Adds the class of a line.
    pub(crate) fn add(&mut self, line: &[u16]) -> Result<()>
        requires width { length line.now ≡ self.old.width }
        ensures added { OnOk result (self.new.is_open ≡ true → AddsLine (λ k. slice_index line.now k) self.old self.new) }
        ensures open { OnOk result (self.new.is_open ≡ true → self.old.is_open ≡ true) }
        ensures memory { IfErr result (λ e. e ≡ errors.Memory) }
    {
        if !self.is_open {
            return Ok(());
        }
        let key = key_of(line);
        if let Some(class) = self.find(line, key) {
            self.classes.push(class as u16)?;
            return Ok(());
        }
        if self.keys.len() >= MOST {
            self.is_open = false;
            return Ok(());
        }
        self.put(line, key)?;
        Ok(())
    }

    /// Adds the class of a line of zeros.
    pub(crate) fn add_zeros(&mut self) -> Result<()>
        ensures added { OnOk result (AddsLine (λ k. 0) self.old self.new) }
        ensures open { OnOk result (self.new.is_open ≡ self.old.is_open) }
        ensures memory { IfErr result (λ e. e ≡ errors.Memory) }
    {
        self.classes.push(0)?;
        Ok(())
    }
}
