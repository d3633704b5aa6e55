//! Reading several values in a row.
ghost use Rattle.std.specs.Prelude.{◌≡◌, ◌<◌, ◌≤◌, ◌-◌, ◌^◌, ℕ, Bool, List, [], ◌∷◌, length, map, vec_len, IfOk};
ghost use Rattle.postscript_base.specs.Error.{IsListed};
ghost use Rattle.postscript_base.specs.Tape.Outcome.{Reading, Got, same};
ghost use Rattle.postscript_base.specs.Tape.Onward.{TakesBytes};
ghost use Rattle.postscript_base.specs.Tape.{Reads, IsHonest, Kept};
ghost use Rattle.postscript_base.specs.Tape.Loops.{many, chain, until, to_end, each, AreFor, AreLinked, IsNext};

use super::{Tape, Value};
use crate::error::{Error, Result};
use std::alloc::Global;
use std::io::SeekFrom;

/// The initial capacity of a list that is read to the end of a tape. Most dictionaries have fewer operations.
const ROOM: usize = 24;

/// Reads `count` values, one after the other. The list grows as they are read.
///
/// # Errors
///
/// - The error of the first value that fails.
/// - `Memory`: out of memory.
pub fn read_many<V: Value + Drop, T: Tape>(
    alloc: Global,
    tape: &mut T,
    count: usize,
) -> Result<Vec<V>>
    // On an honest tape it reads exactly `count` values in a row, unless memory runs out.
    ensures exact { Reads (λ values. V.views values.items) (T.state tape.old) result (T.state tape.new)
        (many V.reading count) }
    // The only errors are `Memory` and those in `V.refusals`.
    ensures listed { IsListed (3 ∷ V.refusals) result }
{
    let mut values = Vec::new(alloc);
    for _ in 0..count {
        let value = V::read(alloc, tape)?;
        values.push(value)?;
    }
    Ok(values)
}

/// A type whose values are read one after the other, with data that the earlier ones pass on.
pub trait Linked: Sized {
    /// The data that a reading gets.
    type Given: Copy;

    /// The form in which contracts see a value.
    ghost Shown: { Type 0 };

    ghost view: { Self → Shown };

    /// The form in which contracts see a list of values. Each one has the form of `view`.
    ghost views: { List Self → List Shown };

    /// The outcome of reading, by the data that it gets, the bytes and the offset.
    ghost reading: { Self.Given → Reading Shown };

    /// The codes of the errors that reading can return. If 3 is missing, reading never fails with `Memory`.
    ghost refusals: { List ℕ };

    /// The data for the next value, by the data for this one and the value.
    ghost left: { Self.Given → Shown → Self.Given };

    /// A relation of a value to the data that it got, which holds on any tape.
    ghost follows: { Self.Given → Self → Type 0 } = { λ _ _. Unit {0} };

    /// Reads a value with the data from the earlier ones. On an honest tape `given` and the bytes determine the value
    /// and the next offset, or the error, by `reading`.
    ///
    /// # Errors
    ///
    /// - Those listed at the `impl` for the type, all with codes in `refusals`.
    fn read<T: Tape>(alloc: Global, tape: &mut T, given: Self::Given) -> Result<Self>
        // On an honest tape the result is exactly what `reading` gives, unless memory runs out.
        ensures exact { Reads view (T.state tape.old) result (T.state tape.new) (reading given) }
        // The only errors are those whose codes are in `refusals`.
        ensures listed { IsListed refusals result }
        // On any tape the value and `given` satisfy `follows`.
        ensures follows { IfOk result (λ value. follows given value) };

    /// Returns the data for the next value.
    fn left(&self, given: Self::Given) -> Self::Given
        // The result is what the ghost function `left` gives for `given` and this value.
        ensures { result ≡ left given (view self.now) };

    ghost views_each: { (xs : List Self) → views xs ≡ map view xs };
}

/// Reads `length` values. The first one gets `first`, and each later one gets the data that the earlier ones pass on.
///
/// # Errors
///
/// - The error of the first value that fails.
/// - `Memory`: out of memory.
pub fn read_chain<W: Linked + Drop, T: Tape>(
    alloc: Global,
    tape: &mut T,
    first: W::Given,
    length: usize,
) -> Result<Vec<W>>
    // On any tape there are `length` values, and each satisfies `W.follows` with its data.
    ensures linked { IfOk result (λ values. AreLinked W.follows (λ given value. W.left given (W.view value)) first length values.items) }
    // On an honest tape it reads exactly `length` linked values, unless memory runs out.
    ensures exact { Reads (λ values. W.views values.items) (T.state tape.old) result (T.state tape.new)
        (chain W.reading W.left first length) }
    // The only errors are `Memory` and those in `W.refusals`.
    ensures listed { IsListed (3 ∷ W.refusals) result }
{
    let mut values = Vec::new(alloc);
    let mut given = first;
    for _ in 0..length {
        let value = W::read(alloc, tape, given)?;
        given = value.left(given);
        values.push(value)?;
    }
    Ok(values)
}

/// A type whose values are read until the data that they pass on satisfies a test.
pub trait Until: Linked {
    ghost is_last: { Self.Given → Bool };

    /// Returns whether to stop, by the data that the earlier values pass on.
    fn is_last(given: Self::Given) -> bool
        // The result is what the ghost function `is_last` gives for `given`.
        ensures { result ≡ is_last given };
}

/// Reads values until `Until::is_last` holds. The first one gets `first`, and each later one gets the data that the
/// earlier ones pass on.
///
/// The caller proves that a value takes at least one byte and stays within the bytes (`numbers_move_on`). Because of
/// this precondition, only `postscript_base` exports the function.
///
/// # Errors
///
/// - The error of the first value that fails.
/// - `Memory`: out of memory.
pub fn read_until<W: Until + Drop, T: Tape>(
    alloc: Global,
    tape: &mut T,
    first: W::Given,
) -> Result<Vec<W>>
    requires { (given : W.Given) → TakesBytes (W.reading given) }
    // On an honest tape it reads exactly the values up to `W.is_last`, unless memory runs out.
    ensures exact { Reads (λ values. W.views values.items) (T.state tape.old) result (T.state tape.new)
        (until W.is_last W.reading W.left first) }
    // The only errors are `Memory` and those in `W.refusals`.
    ensures listed { IsListed (3 ∷ W.refusals) result }
{
    let mut values = Vec::new(alloc);
    let mut given = first;
    'values: while !W::is_last(given) {
        let value = W::read(alloc, tape, given)?;
        given = value.left(given);
        values.push(value)?;
    }
    Ok(values)
}

/// Reads values up to the end of the tape. A last value that the end truncates is ignored. Afterwards the tape is at
/// its end.
///
/// The caller proves that a value takes at least one byte and stays within the bytes (`numbers_move_on`). Because of
/// this precondition, only `postscript_base` exports the function. On any tape the offset increases with each value.
///
/// # Errors
///
/// - The error of the first value that fails, except for `UnexpectedEof`, which ends the list.
/// - `TapeStuck`: the offset of the tape does not increase. This never happens on an honest tape.
/// - `UnexpectedEof`: a seek failed. This never happens on an honest tape.
/// - `Io`: any other fault of the tape.
/// - `Memory`: out of memory.
pub fn read_to_end<V: Value + Drop, T: Tape>(alloc: Global, tape: &mut T) -> Result<Vec<V>>
    requires { TakesBytes V.reading }
    // On any tape there are fewer than 2^64 values.
    ensures rises { IfOk result (λ values. vec_len values < 2 ^ 64) }
    // On an honest tape there are at most as many values as bytes are left.
    ensures takes { IsHonest (T.state tape.old) →
        IfOk result (λ values. vec_len values ≤ length (T.state tape.old).bytes - (T.state tape.old).place) }
    // On an honest tape it reads exactly the values up to the end, unless memory runs out.
    ensures exact { Reads (λ values. V.views values.items) (T.state tape.old) result (T.state tape.new)
        (to_end V.reading) }
    // The only errors are those with the codes 1 to 4 and those in `V.refusals`.
    ensures listed { IsListed (1 ∷ 2 ∷ 3 ∷ 4 ∷ V.refusals) result }
{
    let mut values = Vec::with_capacity(alloc, ROOM)?;
    let mut place = tape.position()?;
    'values: while let Some(value) = next::<V, T>(alloc, tape)? {
        values.push(value)?;
        let reached = tape.position()?;
        if reached <= place {
            return Err(Error::TapeStuck);
        }
        place = reached;
    }
    go_to_end(tape)?;
    Ok(values)
}

/// Reads a value, or returns `None` if the end truncates it.
#[inline(always)]
fn next<V: Value, T: Tape>(alloc: Global, tape: &mut T) -> Result<Option<V>>
    requires { TakesBytes V.reading }
    ensures exact { IsHonest (T.state tape.old) → Kept (T.state tape.old) (T.state tape.new)
        × IsNext V.view result (T.state tape.new).place (V.reading (T.state tape.old).bytes (T.state tape.old).place) }
    ensures listed { IsListed V.refusals result }
{
    match V::read(alloc, tape) {
        Ok(value) => Ok(Some(value)),
        Err(Error::UnexpectedEof) => Ok(None),
        Err(error) => Err(error),
    }
}

/// Moves to the end, and returns its offset.
fn go_to_end<T: Tape>(tape: &mut T) -> Result<u64>
    ensures exact { Reads same (T.state tape.old) result (T.state tape.new) (λ bytes _. Got (length bytes) (length bytes)) }
    ensures listed { IsListed (1 ∷ 2 ∷ []) result }
{
    Ok(tape.seek_to(SeekFrom::End(0))?)
}

/// A source: a type with a value to read for each of its elements.
pub trait Source {
    /// The data that all readings of a list get.
    type Given: Copy;

    /// The type of the value for a source.
    type Value: Drop;

    /// The form in which contracts see a source.
    ghost Seen: { Type 0 };

    ghost seen: { Self → Seen };

    /// The form in which contracts see a value.
    ghost Shown: { Type 0 };

    ghost view: { Self.Value → Shown };

    /// The form in which contracts see a list of values. Each one has the form of `view`.
    ghost views: { List Self.Value → List Shown };

    /// The outcome of reading, by the data that it gets, the source, the bytes and the offset.
    ghost reading: { Self.Given → Seen → Reading Shown };

    /// The codes of the errors that reading can return. If 3 is missing, reading never fails with `Memory`.
    ghost refusals: { List ℕ };

    /// A relation of a value to its source, which holds on any tape.
    ghost fits: { Self → Self.Value → Type 0 } = { λ _ _. Unit {0} };

    /// Reads the value for this source. On an honest tape `given`, the source and the bytes determine the value and the
    /// next offset, or the error, by `reading`.
    ///
    /// # Errors
    ///
    /// - Those listed at the `impl` for the type, all with codes in `refusals`.
    fn read<T: Tape>(&self, alloc: Global, tape: &mut T, given: Self::Given) -> Result<Self::Value>
        // On an honest tape the result is exactly what `reading` gives, unless memory runs out.
        ensures exact { Reads view (T.state tape.old) result (T.state tape.new) (reading given (seen self.now)) }
        // The only errors are those whose codes are in `refusals`.
        ensures listed { IsListed refusals result }
        // On any tape the source and the value satisfy `fits`.
        ensures fits { IfOk result (λ value. fits self.now value) };

    ghost views_each: { (xs : List Self.Value) → views xs ≡ map view xs };
}

/// Reads a value for each source of a list, in order. Each reading gets the same `given`.
///
/// # Errors
///
/// - The error of the first value that fails.
/// - `Memory`: out of memory.
pub fn read_each<S: Source, T: Tape>(
    alloc: Global,
    tape: &mut T,
    sources: &[S],
    given: S::Given,
) -> Result<Vec<S::Value>>
    // On any tape there is one value for each source, and they satisfy `S.fits`.
    ensures fitting { IfOk result (λ values. AreFor S.fits sources.now values.items) }
    // On an honest tape it reads exactly one value for each source, unless memory runs out.
    ensures exact { Reads (λ values. S.views values.items) (T.state tape.old) result (T.state tape.new)
        (each (S.reading given) (map S.seen sources.now)) }
    // The only errors are `Memory` and those in `S.refusals`.
    ensures listed { IsListed (3 ∷ S.refusals) result }
{
    let mut values = Vec::new(alloc);
    for source in sources {
        let value = source.read(alloc, tape, given)?;
        values.push(value)?;
    }
    Ok(values)
}
