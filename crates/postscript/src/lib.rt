//! A parser for fonts in the Compact Font Format, and an interpreter for their charstrings.
//!
//! These rules hold for all functions:
//!
//! - `# Errors` lists every `Error` that a function can return. If the contract has a clause `listed`, this is proved.
//! - A function that lists `Memory` can fail with it on any input, if memory runs out.
//! - A tape is honest if contracts know its bytes and its offset, as for a `Cursor` over bytes (`tape::ReadSeek`). On
//!   an honest tape the parts of a font are read exactly. There `Io` occurs only for an offset past the end.
//! - `clone` takes no allocator. For a `Copy` type it needs no memory. For other types it uses the global allocator, as
//!   its comment says, and fails with `Memory` if that fails.
//! - After an error the offset of the tape is unspecified, unless the comment gives it.
//! - Offsets and sizes are in bytes, and offsets count from the start of the tape. Glyphs and items count from 0.
//! - Operands of dictionaries are exact decimals. Operands of charstrings, and widths, are 16.16 fixed-point numbers.
//!
//! The examples use `std::alloc::Global`, `std::io::Cursor`, and from this crate `Result`, `Tape`, `Value` and the
//! types that they name.
#![tactic(auto)]

pub use postscript_base::{Error, Result, Tape, Value, Walue, error};
pub use postscript_type2 as type2;

/// The Compact Font Format (Adobe Technical Note 5176).
pub mod compact1 {
    pub use postscript_base::compact1::{
        GlyphID, Header, Offset, OffsetSize, Operand, Operands, Operation, Operations, Operator,
        StringID, laws, number,
    };
    pub use postscript_compact1::char_set::CharSet;
    pub use postscript_compact1::encoding::Encoding;
    pub use postscript_compact1::font_set::FontSet;
    pub use postscript_compact1::index::Index;
    pub use postscript_compact1::{char_set, encoding, font_set, index};
}

/// Tapes, and the values that are read from them.
pub mod tape {
    pub use postscript_base::tape::{
        Linked, Opaque, ReadSeek, Source, Tape, Value, Walue, bytes_at, fixed, read_chain,
        read_each, read_many,
    };
}
