//! The tables after the header of a font.
ghost use Rattle.std.specs.Prelude.{[], ◌∷◌, map, string_bytes};
ghost use Rattle.postscript_base.specs.Error.{IsListed};
ghost use Rattle.postscript_base.specs.Tape.{Reads};
ghost use Rattle.postscript_compact1.specs.Computed.Order.{names as the_names, dictionaries as the_dictionaries, tables, behind};
ghost use Rattle.postscript_compact1.specs.FontSet.Value.{tables_shown};

use crate::index::{Dictionaries, Names, Strings, Subroutines};
use postscript_base::compact1::{Header, Operations};
use postscript_base::tape::read_at;
use postscript_base::{Error, Result, Tape, Value};
use std::alloc::Global;

/// The tables after the header of a font.
#[derive(Drop)]
pub(super) struct Tables {
    pub(super) names: Vec<String>,
    pub(super) dictionaries: Vec<Operations>,
    pub(super) strings: Strings,
    pub(super) subroutines: Subroutines,
}

/// Reads the tables after the header.
#[tactic(auto, unfolding(crate::specs::Computed::Order::behind))]
pub(super) fn read_behind<T: Tape>(
    alloc: Global,
    tape: &mut T,
    start: u64,
    header: Header,
) -> Result<Tables>
    ensures exact { Reads tables_shown (T.state tape.old) result (T.state tape.new) (behind start header) }
    ensures listed { IsListed (1 ∷ 2 ∷ 3 ∷ 5 ∷ 6 ∷ 7 ∷ 8 ∷ 9 ∷ 15 ∷ []) result }
{
    let Some(place) = start.checked_add(u64::from(header.header_size)) else {
        return Err(Error::OutOfRangeOffset);
    };
    read_tables(alloc, tape, place)
}

/// Reads names, Top DICTs, strings and global subroutines, one after the other.
#[tactic(auto, unfolding(crate::specs::Computed::Order::tables))]
fn read_tables<T: Tape>(alloc: Global, tape: &mut T, place: u64) -> Result<Tables>
    ensures exact { Reads tables_shown (T.state tape.old) result (T.state tape.new) (tables place) }
    ensures listed { IsListed (1 ∷ 2 ∷ 3 ∷ 5 ∷ 6 ∷ 7 ∷ 8 ∷ 9 ∷ []) result }
{
    let names = read_names(alloc, tape, place)?;
    let dictionaries = read_dictionaries(alloc, tape)?;
    let strings = Strings::read(alloc, tape)?;
    let subroutines = Subroutines::read(alloc, tape)?;
    Ok(Tables {
        names,
        dictionaries,
        strings,
        subroutines,
    })
}

/// Reads the names as text.
#[tactic(auto, using(crate::proofs::IndexIs::needs), unfolding(crate::specs::Computed::Order::names))]
fn read_names<T: Tape>(alloc: Global, tape: &mut T, place: u64) -> Result<Vec<String>>
    ensures exact { Reads (λ names. map string_bytes names.items) (T.state tape.old) result (T.state tape.new) (the_names place) }
    ensures listed { IsListed (1 ∷ 2 ∷ 3 ∷ 5 ∷ 6 ∷ []) result }
{
    let names = read_at::<Names, T>(alloc, tape, place)?;
    names.into(alloc)
}

/// Reads the Top DICTs.
#[tactic(auto, unfolding(crate::specs::Computed::Order::dictionaries))]
fn read_dictionaries<T: Tape>(alloc: Global, tape: &mut T) -> Result<Vec<Operations>>
    ensures exact { Reads (λ dictionaries. dictionaries.items) (T.state tape.old) result (T.state tape.new) the_dictionaries }
    ensures listed { IsListed (1 ∷ 2 ∷ 3 ∷ 5 ∷ 6 ∷ 7 ∷ 8 ∷ 9 ∷ []) result }
{
    let dictionaries = Dictionaries::read(alloc, tape)?;
    Ok(dictionaries.into(alloc)?)
}
