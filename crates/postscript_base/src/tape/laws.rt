//! Facts about readings, for proofs of callers.
ghost use Rattle.std.specs.Prelude.{◌<◌};
ghost use Rattle.postscript_base.specs.Numbers.{number, slice};
ghost use Rattle.postscript_base.specs.Tape.At.{NeedsBytes};
ghost use Rattle.postscript_base.specs.Tape.Onward.{TakesBytes};

/// States that reading a number of `size` bytes, one or more, takes at least one byte, stays within the bytes, and
/// fails past the end. Callers of `read_at`, `read_until` and `read_to_end` need it. It does nothing at run time.
#[tactic(auto, using(crate::proofs::Onward::number_takes, crate::proofs::Onward::number_needs))]
pub fn numbers_move_on(size: usize)
    requires { 0 < size }
    // Reading a number of `size` bytes takes at least one byte and stays within the bytes.
    ensures takes { TakesBytes (number size) }
    // Reading a number of `size` bytes past the end fails with `UnexpectedEof`.
    ensures needs { NeedsBytes (number size) }
{
    let _ = size;
}

/// States that reading `size` bytes, one or more, takes at least one byte, stays within the bytes, and fails past the
/// end. Callers of `read_given_at` need it. It does nothing at run time.
#[tactic(auto, using(crate::proofs::Onward::slice_takes, crate::proofs::Onward::slice_needs))]
pub fn slices_move_on(size: usize)
    requires { 0 < size }
    // Reading `size` bytes takes at least one byte and stays within the bytes.
    ensures takes { TakesBytes (slice size) }
    // Reading `size` bytes past the end fails with `UnexpectedEof`.
    ensures needs { NeedsBytes (slice size) }
{
    let _ = size;
}
