//! Big-endian numbers.
ghost use Rattle.std.specs.Prelude.{◌≡◌, ◌++◌, OnOk};
ghost use Rattle.postscript_sfnt_write.specs.Numbers.{uint16 as the_uint16, uint32 as the_uint32};

use std::alloc::AllocError;

/// Appends a number of two bytes.
#[tactic(auto, unfolding(crate::specs::Numbers::uint16))]
pub(crate) fn put_uint16(out: &mut Vec<u8>, number: u16) -> Result<(), AllocError>
    ensures { OnOk result (out.new.items ≡ out.old.items ++ the_uint16 number) }
{
    out.extend_from_slice(&number.to_be_bytes())
}

/// Appends a number of four bytes.
#[tactic(auto, unfolding(crate::specs::Numbers::uint32))]
pub(crate) fn put_uint32(out: &mut Vec<u8>, number: u32) -> Result<(), AllocError>
    ensures { OnOk result (out.new.items ≡ out.old.items ++ the_uint32 number) }
{
    out.extend_from_slice(&number.to_be_bytes())
}
