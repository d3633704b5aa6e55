//! Glyphs that a subset keeps in addition: the components of `seac` glyphs.
use crate::asking::ask;
use postscript_drawing::{Accent, component_of};
use postscript_view::FontView;
use psotf_output::failure::Failure;
use psotf_output::limit::Budget;
use psotf_output::telling;
use std::alloc::{AllocError, Global};

/// A glyph that was added, and the first glyph that it is a component of.
#[derive(Clone, Copy)]
struct Component {
    glyph: usize,
    of: usize,
}

/// The glyphs to keep.
#[derive(Drop)]
pub struct Kept {
    /// The glyphs to check, in the order in which they are found.
    glyphs: Vec<usize>,
    /// Whether each glyph of the font is kept.
    marks: Vec<bool>,
    components: Vec<Component>,
}

impl Kept {
    /// Returns no glyphs.
    pub fn new(alloc: Global) -> Kept {
        Kept {
            glyphs: Vec::new(alloc),
            marks: Vec::new(alloc),
            components: Vec::new(alloc),
        }
    }

    /// Adds a glyph. Returns whether it is new.
    fn put(&mut self, glyph: usize) -> Result<bool, AllocError> {
        match self.marks.get_mut(glyph) {
            Some(mark) if !*mark => {
                *mark = true;
                self.glyphs.push(glyph)?;
                Ok(true)
            }
            _ => Ok(false),
        }
    }

    /// Adds a glyph as a component of another one.
    fn put_component(&mut self, glyph: usize, of: usize) -> Result<(), AllocError> {
        if self.put(glyph)? {
            self.components.push(Component { glyph, of })?;
        }
        Ok(())
    }

    /// Adds the chosen glyphs of a font with `glyphs` glyphs.
    fn put_named(&mut self, named: &[usize], glyphs: usize) -> Result<(), AllocError> {
        self.marks.resize(glyphs, false)?;
        for glyph in named {
            let _ = self.put(*glyph)?;
        }
        Ok(())
    }

    /// Adds the base and the accent of a glyph, if the font has them.
    fn put_both(
        &mut self,
        font: &FontView<'_>,
        accent: &Accent,
        of: usize,
    ) -> Result<(), AllocError> {
        for code in [accent.base, accent.accent] {
            if let Some(glyph) = component_in(font, code) {
                self.put_component(glyph, of)?;
            }
        }
        Ok(())
    }

    /// Checks each kept glyph, also those that are added.
    fn ask_each(
        &mut self,
        alloc: Global,
        font: &FontView<'_>,
        budget: &mut Budget,
    ) -> Result<(), Failure> {
        for i in 0..font.char_strings.len() {
            let Some(glyph) = self.glyphs.get(i).copied() else {
                break;
            };
            if let Some(accent) = ask(alloc, font, glyph, budget)? {
                budget.search(font);
                self.put_both(font, &accent, glyph)?;
            }
        }
        Ok(())
    }

    /// Adds the chosen glyphs and their components, and checks that each of them is within its share. No run takes
    /// longer.
    pub fn ask(
        &mut self,
        alloc: Global,
        font: &FontView<'_>,
        named: &[usize],
        budget: &mut Budget,
    ) -> Result<(), Failure> {
        self.put_named(named, font.char_strings.len())?;
        self.ask_each(alloc, font, budget)
    }

    /// Reports on standard error each glyph that was added, with the glyph that it is a component of.
    pub fn tell(&self, rt: &HostRuntime) -> Result<(), Failure> {
        for component in &self.components {
            let Component { glyph, of } = *component;
            telling::tell(
                rt,
                format_args!("glyph {glyph} is kept too: it is a component of glyph {of}"),
            )?;
        }
        Ok(())
    }
}

/// Returns the glyph with a code in the standard encoding, if the font has one.
fn component_in(font: &FontView<'_>, code: u8) -> Option<usize> {
    component_of(font, code).ok()
}
