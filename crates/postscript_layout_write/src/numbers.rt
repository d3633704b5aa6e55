//! Numbers at an offset of a table, and numbers as they are written.
ghost use Rattle.std.specs.Prelude.{◌≡◌, ◌++◌, OnOk};
ghost use Rattle.postscript_layout_write.specs.Text.{uint16 as the_uint16};

pub(crate) use postscript_layout::numbers::{long, word};
use std::alloc::AllocError;

/// Appends a number of two bytes.
#[tactic(auto, unfolding(crate::specs::Text::uint16))]
pub(crate) fn put_uint16(out: &mut Vec<u8>, number: u16) -> Result<(), AllocError>
    ensures { OnOk result (out.new.items ≡ out.old.items ++ the_uint16 number) }
{
    out.extend_from_slice(&number.to_be_bytes())
}
