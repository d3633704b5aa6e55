//! The components of `seac` glyphs.
ghost use Rattle.std.specs.Prelude.{◌≡◌, IfOk, IfErr};
ghost use Rattle.postscript_drawing.specs.Components.{HasNoComponent, IsComponent, standard_identifier as the_standard_identifier};

use crate::error::{Error, Result};
use postscript_base::compact1::StringID;
use postscript_compact1::encoding::Encoding;
use postscript_view::FontView;

/// Returns the glyph for a code of the standard encoding (Technical Note 5176, Appendix B). This is the first glyph of
/// the font with the name for the code. If the encoding does not have the code, it is glyph 0, `.notdef`.
///
/// # Errors
///
/// - `NoAccents`: the font is CID-keyed, so its glyphs have no names.
/// - `MissingComponent`: no glyph has the name.
/// - `Font`: the charset is malformed. It is the error of `FontView::char_set`.
pub fn component_of(font: &FontView<'_>, code: u8) -> Result<usize>
    // On success it is the first glyph with the name that the standard encoding gives the code.
    ensures found { IfOk result (λ glyph. IsComponent font.now code glyph) }
    // The error gives a cause that holds (`HasNoComponent`, specs/Components.antt).
    ensures why { IfErr result (λ e. HasNoComponent e font.now code) }
{
    if font.is_cid_keyed() {
        return Err(Error::NoAccents);
    }
    let set = font.char_set()?;
    match set.glyph_of(standard_identifier(code), font.char_strings.len()) {
        Some(glyph) => Ok(glyph),
        None => Err(Error::MissingComponent(code)),
    }
}

/// The SID of the name for a code in the standard encoding.
#[tactic(auto, unfolding(postscript_compact1::specs::Computed::Encodings::identifier_of))]
fn standard_identifier(code: u8) -> StringID
    ensures { result ≡ the_standard_identifier code }
{
    match Encoding::Standard.get(u16::from(code)) {
        Some(identifier) => identifier,
        None => 0,
    }
}
