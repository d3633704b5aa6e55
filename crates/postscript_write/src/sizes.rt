//! The maximum size of a new font.
ghost use Rattle.std.specs.Prelude.{◌≡◌, ◌+◌, ◌<◌, ◌≤◌, IfSome, IfNone, MatchBool};
ghost use Rattle.postscript_base.specs.Index.Lent.{items_of};
ghost use Rattle.postscript_type2.specs.Program.Routines.{texts};
ghost use Rattle.postscript_view.specs.Value.{view_shown};
ghost use Rattle.postscript_write.specs.Sizes.{IsLarge, bytes_in, codes_size};

use postscript_base::index::IndexView;
use postscript_view::FontView;

/// The sum of two sizes, if it is below 2,000,000,000 bytes.
fn sum_within(sum: usize, more: usize) -> Option<usize>
    requires { sum < 2000000000 }
    ensures some { IfSome result (λ all. (all ≡ sum + more) × (all < 2000000000)) }
    ensures none { IfNone result (2000000000 ≤ sum + more) }
{
    if more < 2_000_000_000 - sum {
        Some(sum + more)
    } else {
        None
    }
}

/// A size plus the size of items, if it is below 2,000,000,000 bytes.
fn with_items(sum: usize, items: &IndexView<'_>) -> Option<usize>
    requires { sum < 2000000000 }
    ensures some { IfSome result (λ all. (all ≡ sum + bytes_in (items_of items.now)) × (all < 2000000000)) }
    ensures none { IfNone result (2000000000 ≤ sum + bytes_in (items_of items.now)) }
{
    let mut all = sum;
    for i in 0..items.len() {
        all = sum_within(all, items.item(i).len())?;
    }
    Some(all)
}

/// A size plus the size of charstrings, if it is below 2,000,000,000 bytes.
fn with_codes(sum: usize, codes: &[Vec<u8>]) -> Option<usize>
    requires { sum < 2000000000 }
    ensures some { IfSome result (λ all. (all ≡ sum + codes_size codes.now) × (all < 2000000000)) }
    ensures none { IfNone result (2000000000 ≤ sum + codes_size codes.now) }
{
    let mut all = sum;
    for i in 0..codes.len() {
        all = sum_within(all, codes[i].len())?;
    }
    Some(all)
}

/// The size of a font with these charstrings. `None` if it is too large.
#[tactic(auto, using(crate::proofs::Sums::codes_are))]
fn size_of_font(font: &FontView<'_>, codes: &[Vec<u8>]) -> Option<usize>
    ensures some { IfSome result (λ _. IsLarge font.now.bytes.now (view_shown font.now) (texts codes.now) → ⊥) }
    ensures none { IfNone result (IsLarge font.now.bytes.now (view_shown font.now) (texts codes.now)) }
{
    if font.bytes.len() >= 500_000_000 {
        return None;
    }
    let names = with_items(4 * font.bytes.len(), &font.names)?;
    let strings = with_items(names, &font.strings)?;
    with_codes(strings, codes)
}

/// Whether a font with these charstrings is too large.
pub(crate) fn is_large(font: &FontView<'_>, codes: &[Vec<u8>]) -> bool
    ensures { MatchBool result (IsLarge font.now.bytes.now (view_shown font.now) (texts codes.now))
        (IsLarge font.now.bytes.now (view_shown font.now) (texts codes.now) → ⊥) }
{
    size_of_font(font, codes).is_none()
}
