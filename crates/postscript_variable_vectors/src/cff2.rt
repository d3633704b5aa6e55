//! A small table, and truncated and changed versions of it.
use crate::checks::{holds, holds_at};
use crate::small::TABLE;
use postscript_cff2::{Error, FdSelect, Font};

#[test]
fn a_table_by_hand(rt: HostRuntime) {
    let font = Font::read(TABLE).expect(&rt, "the font");
    holds(&rt, font.char_strings.len() == 2, "the charstrings");
    holds(&rt, font.global_subroutines.len() == 1, "a subroutine");
    holds(&rt, font.glyph(1) == Some(&TABLE[42..53]), "a charstring");
    holds(&rt, font.glyph(2).is_none(), "no third glyph");
    holds(&rt, font.part(2).is_none(), "no third part");
    holds(&rt, font.number(1) == Some(0), "the only Font DICT");
    let store = font.store.expect(&rt, "a store");
    holds(&rt, store.len() == 2, "its item variation data");
}

#[test]
fn a_private_dictionary_by_hand(rt: HostRuntime) {
    let font = Font::read(TABLE).expect(&rt, "the font");
    let part = font.part(1).expect(&rt, "a Private DICT");
    let bytes = part.private_dictionary.bytes;
    holds(&rt, bytes == &TABLE[67..71], "its bytes");
    let subroutine = part.subroutines.get(0);
    holds(&rt, subroutine == Some(&TABLE[78..80]), "its subroutine");
    holds(&rt, part.index == 1, "its vsindex");
}

#[test]
fn tables_that_are_refused(rt: HostRuntime) {
    let cut = [
        (4, Error::Header),
        (23, Error::Dictionary(5)),
        (27, Error::Subroutines(24)),
        (37, Error::Index(17, 34)),
        (56, Error::Index(0x0c24, 53)),
        (81, Error::Store(82)),
    ];
    for (i, (len, wanted)) in cut.iter().enumerate() {
        let found = Font::read(&TABLE[..*len]).err();
        holds_at(&rt, found == Some(*wanted), "cut", i);
    }
    let changed = [
        (0, 1, Error::Version),
        (2, 4, Error::Header),
        (10, 16, Error::Offset(17)),
        (17, 0x25, Error::Offset(0x0c24)),
        (83, 2, Error::Store(82)),
    ];
    for (i, (place, byte, wanted)) in changed.iter().enumerate() {
        let mut table = [0u8; 132];
        table.copy_from_slice(TABLE);
        table[*place] = *byte;
        let found = Font::read(&table).err();
        holds_at(&rt, found == Some(*wanted), "changed", i);
    }
}

#[test]
fn ranges_of_glyphs(rt: HostRuntime) {
    // glyphs 0 and 1, and those from 2 to 3
    let ranges = [3, 0, 2, 0, 0, 0, 0, 2, 1, 0, 4];
    let select = FdSelect::read(&ranges, 0, 4).expect(&rt, "FDSelect");
    let found = [0, 1, 2, 3, 4].map(|glyph| select.fd(glyph));
    let wanted = [Some(0), Some(0), Some(1), Some(1), None];
    holds(&rt, found == wanted, "the Font DICTs");
    // the same ranges in the other order
    let falling = [3, 0, 2, 0, 2, 1, 0, 0, 0, 0, 4];
    let found = FdSelect::read(&falling, 0, 4);
    holds(&rt, found.is_none(), "ranges that fall");
}
