//! Laws about closed lists.
ghost use Rattle.postscript_layout.specs.Texts.{TextStays};

/// A law: text with glyphs of a list that is closed over chosen lookups keeps to glyphs of that list, whatever
/// substitutions of these lookups a shaper makes. It does nothing.
pub fn text_stays()
    // After any substitutions by the chosen lookups a text has only glyphs of the closed list.
    ensures { TextStays }
{}
