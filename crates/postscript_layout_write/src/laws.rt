//! Laws about texts.
ghost use Rattle.postscript_layout_write.specs.Texts.{TextStays};

use postscript_layout::laws::text_stays as steps_stay;

/// A law: text with glyphs of [`closure_with_called`](crate::closure_with_called) keeps to these glyphs, whatever
/// substitutions a shaper makes by the chosen lookups and by those that their contexts call. It does nothing.
pub fn text_stays()
    // After any substitutions by the lookups a text has only glyphs of the list.
    ensures { TextStays }
{
    steps_stay();
}
