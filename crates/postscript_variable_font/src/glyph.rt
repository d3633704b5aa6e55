//! The charstring of a glyph, and its drawing.
ghost use Rattle.std.specs.Prelude.{◌≡◌, ◌≢◌, Err, OnOk, OnErr, IfErr, IfSome, IfNone, false, true};
ghost use Rattle.postscript_cff2.specs.Parts.{HasPart, PrivateDict as ShownDict};
ghost use Rattle.postscript_cff2.specs.Shown.{view_shown};
ghost use Rattle.postscript_drawing.specs.Outcome.{OrFull};
ghost use Rattle.postscript_drawing.specs.declared.error.Error.TheVariants as errors;
ghost use Rattle.postscript_variable_font.specs.Drawn.{Gives};
ghost use Rattle.postscript_variable_font.specs.GlyphDrawings.{DrawsGlyph, DrawsGlyphFront, GivesGlyphFirst, IsGlyphUndrawn, SpendsOnGlyph, SufficesFor};
ghost use Rattle.postscript_variable_font.specs.Glyphs.{IsCharstringOf};

use crate::drawing::draw;
use crate::laws::one_run;
use crate::place::Place;
use postscript_cff2::Font;
use postscript_drawing::{Error, Result};
use postscript_outline::Sink;
use postscript_type2::Subroutines;
use postscript_variable::{Blends, Charstring};
use std::alloc::Global;

/// Returns the charstring of a glyph at a location of the font.
///
/// It has the global subroutines of the font, the local subroutines and the `vsindex` of the glyph's Private DICT, and
/// the scalars of the location. Returns `None` if there is no such glyph, or if its Font DICT is missing or malformed
/// ([`Font::part`]).
pub fn charstring<'l>(font: &Font<'l>, glyph: usize, place: &'l Place) -> Option<Charstring<'l>>
    // The charstring has the glyph's code, subroutines and `vsindex`, and the location's scalars.
    ensures found { IfSome result (λ charstring. IsCharstringOf font.now glyph place.now charstring) }
    // `None` only if the glyph has no Font DICT with well-formed parts.
    ensures none { IfNone result ((part : ShownDict) → HasPart font.now.bytes.now (view_shown font.now) glyph part → ⊥) }
{
    let Some(part) = font.part(glyph) else {
        return None;
    };
    let Some(code) = font.glyph(glyph) else {
        return None;
    };
    Some(Charstring {
        code,
        subroutines: Subroutines::indexes(font.global_subroutines, part.subroutines),
        blends: Blends {
            tables: &place.tables,
            index: part.index,
        },
    })
}

/// Draws a glyph of a font at a location into a sink, as [`draw`] does for its charstring.
///
/// The run is within a limit of `*limit` units, which is reduced by its cost. A glyph whose run costs less than the
/// limit is never stopped.
///
/// # Errors
///
/// After an error the sink has the segments up to there.
///
/// - `NoSuchGlyph`: there is no such glyph, or its Font DICT is missing or malformed
///   ([`Font::part`](postscript_cff2::Font::part)).
/// - The errors of [`draw`].
pub fn draw_glyph<S: Sink>(
    alloc: Global,
    font: &Font<'_>,
    glyph: usize,
    place: &Place,
    limit: &mut u64,
    sink: &mut S,
) -> Result<()>
    // On success the sink was given exactly the segments of the glyph's charstring, in order.
    ensures drawn { OnOk result (Gives S.after (S.state sink.old) (S.state sink.new) (DrawsGlyph font.now glyph place.now)) }
    // An error is justified: the glyph has no charstring, or drawing its charstring fails.
    ensures why { IfErr result (λ e. IsGlyphUndrawn font.now glyph place.now limit.new e) }
    // On an error with all coordinates in range, the sink was given first segments, or none.
    ensures front { OnErr result (DrawsGlyphFront S.after (S.state sink.old) (S.state sink.new) font.now glyph place.now) }
    // On an error it was given some first segments, and none of a stroke that leaves the range.
    ensures given { OnErr result (GivesGlyphFirst S.after (S.state sink.old) (S.state sink.new) font.now glyph place.now) }
    // On `Full` the glyph has one more segment, which the sink did not accept (`OrFull`).
    ensures more { result ≡ Err errors.Full →
        GivesGlyphFirst (OrFull S.after) (S.state sink.old, false) (S.state sink.new, true) font.now glyph place.now }
    // The error `Full` means that the sink accepts no further segment.
    ensures full { result ≡ Err errors.Full → S.refuses (S.state sink.new) }
    // The cost of everything that was read is subtracted, and a missing glyph costs nothing.
    ensures spends { SpendsOnGlyph font.now glyph place.now limit.old limit.new result }
    // If the run of the glyph costs less than the limit, the error is not `TooLong`.
    ensures suffices { SufficesFor font.now glyph place.now limit.old → result ≢ Err errors.TooLong }
{
    one_run();
    match charstring(font, glyph, place) {
        Some(charstring) => draw(alloc, charstring, limit, sink),
        None => Err(Error::NoSuchGlyph(glyph)),
    }
}
