//! Writes OpenType layout tables for the glyphs of a subset, which have new numbers (OpenType 1.9; ISO/IEC 14496-22, 6). A
//! `GPOS` table has adjustments of pairs (kerning) and of single glyphs, cursive attachment, marks, and contexts of these. A
//! `GDEF` table has glyph classes, carets of ligatures, and classes and sets of marks. A `GSUB` table has substitutions.
//!
//! It is proved that each lookup of the new `GPOS` table adjusts each pair of kept glyphs exactly as the lookup of the
//! same index of the old table, and no other pair (`KeepsKerning` in specs/Kerning.antt). The first subtable that applies
//! to a pair counts, in both formats, and extensions are followed (specs/Pairs.antt). Pairs are written by classes of both
//! glyphs (format 2) if that takes fewer bytes (specs/ClassPairs.antt), or else one by one. The number of pairs has no bound:
//! many pairs are in several subtables, which follow all lookups, and the lookup has extensions. The script list and the
//! feature list have the same bytes at the same offsets, with all tables that they name (specs/ScriptLists.antt). Each kept
//! glyph has its class (specs/Classes.antt).
//!
//! With `positions`, each lookup also adjusts each kept single glyph as before, and attaches each kept mark to each kept
//! base, mark or component of a ligature at the same anchors as before, and nothing else (`KeepsPositions` in
//! specs/Positions.antt). It also connects each kept glyph to each kept next glyph, by the same exit and entry anchors. The
//! first subtable that covers the single glyph counts (specs/Singles.antt). For a connection it is the first subtable with
//! both anchors (specs/Cursive.antt), and for a mark the first one with an anchor for its class (specs/Marks.antt,
//! specs/Ligatures.antt). A lookup has the contexts whose sets of glyphs all have kept glyphs, with the same actions
//! (specs/PositionContexts.antt). With `flagged_positions`, lookups that use classes or sets of marks are kept too
//! (`KeepsFlaggedPositions` in specs/Flags.antt). They need a `GDEF` table by `glyph_definitions`, in which each kept glyph
//! has the same classes and is in the same sets (specs/Definitions.antt). There each kept glyph also has the same carets, in
//! the same order (specs/Carets.antt).
//!
//! Each lookup of the new `GSUB` table has the rules of the old one whose glyphs are all kept, under new numbers and in the
//! same order (`KeepsSubstitutions` in specs/Substituting.antt). A rule is the result of a single substitution, a sequence,
//! a set of alternates, or a ligature with its components (specs/Rules.antt). For ligatures all subtables count, else the
//! first one that has an entry for the glyph. Its rule is dropped if a glyph is missing, and no other takes its place.
//! With `flagged_substitutions`, lookups that use classes or sets of marks are kept too, as by `flagged_positions`.
//!
//! It also has the contexts of the old one whose sets of glyphs all have kept glyphs, with the same actions and in the same
//! order (specs/Contexts.antt). In both tables each rule of a context by glyphs or by classes (formats 1 and 2) is a context
//! of its own (specs/ContextRules.antt). All are written as chained contexts by sets of glyphs (format 3). A lookup keeps
//! them only if all of its subtables have one of the three formats. `closure_with_called` returns the lookups that contexts
//! call, which have to be chosen too, and the glyphs that all of these can make of given ones: the least lists that lead to
//! no others (specs/Calls.antt, specs/Reached.antt). Text keeps to these glyphs (`laws::text_stays`).
//!
//! A reverse chaining subtable of a `GSUB` table keeps a glyph if both the glyph and its substitute are kept. Its backtrack
//! and its lookahead keep their kept glyphs (specs/Reverses.antt). It is dropped if one of these sets is empty.
//!
//! `with_features` returns such a table with only some of its features. The scripts and languages are the same, and the
//! lookups have the same bytes (`HasOnlyFeatures` in specs/Features.antt).
//!
//! What is left out:
//!
//! - Of `GPOS`, `kerning` keeps only pair adjustments (type 2). `positions` and `flagged_positions` also keep single
//!   adjustments (type 1), cursive attachment (type 3), marks (types 4 to 6), and contexts (types 7 and 8). Other lookups
//!   have no subtables, so the lookup indices of features stay valid. `positions_left_out` and
//!   `flagged_positions_left_out` list them.
//! - Of `GSUB`, single, multiple, alternate and ligature substitutions are kept, contexts and reverse chaining, also in
//!   extensions. Lookups that are not chosen have no subtables.
//! - A lookup with a flag above bit 3, which uses a set or a class of marks, keeps its positions only by
//!   `flagged_positions`, and rules and contexts only by `flagged_substitutions`.
//! - Attachment points, variations and caret values of unknown formats are dropped from `GDEF`.
//! - An extension whose subtables have several types, which is malformed, keeps only its pairs if it has any. Otherwise it
//!   keeps the subtables with the type of the first one.
//! - Contour points, device tables, variation indexes and feature variations are dropped: the new table has version 1.0.
//! - Numbers past the end of the old table are 0. If a coverage table, a class definition or a set of pairs is not in
//!   order, its first entry counts. Readers that search by halves may find another entry there.
//! - Lookups of `GPOS` other than pair adjustments, and all lookups of `GSUB`, have no extensions: more than 64 kB of them
//!   are too large. No clause says when `TooLarge` comes, how small the new table is, or which limit suffices.
#![tactic(auto)]

mod anchors;
mod applying;
mod called;
mod carets;
mod cells;
mod class_pairs;
mod classes;
mod context_rules;
mod contexts;
mod coverages;
mod definitions;
mod entries;
mod error;
mod features;
mod forms;
mod labels;
mod languages;
pub mod laws;
mod leaving;
mod left_positions;
mod ligatures;
mod limit;
mod line_classes;
mod lines;
mod lookups;
mod marks;
mod numbers;
mod pairs;
mod pieces;
mod position_contexts;
mod positioning;
mod ranges;
mod reached;
mod records;
mod renumbering;
mod reverses;
mod row_subtables;
mod rule_sets;
mod rules;
mod scope;
mod script_lists;
mod singles;
mod substituting;
mod subtables;
mod typed;
mod values;

pub use classes::glyph_classes;
pub use definitions::glyph_definitions;
pub use error::{Error, Result};
pub use features::with_features;
pub use leaving::{flagged_left_out, left_out};
pub use left_positions::{flagged_positions_left_out, positions_left_out};
pub use positioning::{flagged_positions, kerning, positions};
pub use reached::{Reached, closure_with_called};
pub use substituting::{flagged_substitutions, substitutions};
