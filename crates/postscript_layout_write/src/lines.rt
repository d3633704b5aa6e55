//! Lines of numbers of one width. Equal lines have one class, and are kept once.
ghost use Rattle.std.specs.Prelude.{◌≡◌, ◌*◌, ◌<◌, ◌≤◌, ℕ, true, length, slice_index};

/// The class of each line, and the line of each class. Class 0 has zeros.
#[derive(Drop)]
pub(crate) struct Lines {
    pub(crate) width: usize,
    /// A sum of the numbers of the line of each class, so that few lines are compared.
    pub(crate) keys: Vec<u64>,
    pub(crate) cells: Vec<u16>,
    pub(crate) classes: Vec<u16>,
    /// Whether there are not too many classes.
    pub(crate) is_open: bool,
    ghost full: { is_open ≡ true → length cells.items ≡ length keys.items * width },
    ghost some: { 0 < length keys.items },
    ghost few: { length keys.items ≤ 512 },
    ghost narrow: { width ≤ 8192 },
    ghost zeros: { (k : ℕ) → k < width → slice_index cells.items k ≡ 0 },
}
