//! Fonts in hex, with spaces, and descriptions of them.

/// A CID-keyed font of four glyphs and two Font DICTs, up to its FDSelect. The charset is of format 2, and the global
/// subroutine 0 and the glyph 3 have no bytes. Glyph 1 calls the local subroutine of the first Font DICT, and glyph 2
/// the global subroutine 1. The first Font DICT has a FontMatrix.
pub const CID: &str =
    "01000401 000101010243 0001010121 f81bf81c8b0c1e 8177f7c0f82405 1c004a0f 1c005311 \
        1c00650c24 1c00990c25 0002 0101060e 41646f6265 4964656e74697479 0002 01010103 bd0b \
        02 000a0001 00640000 0004 010102060b0b 0e 879f200a 92211d160e 0002 0101161b \
        1e0a0005ff8b8b1e0a0005ff8b8b0c07931c008512 901c009412 f88814f8ec159313 0001010103160e \
        f78e146d15";

/// FDSelect of format 3 and of format 0: the glyphs 0 and 1 have the first Font DICT, the others the second.
pub const SELECTIONS: &[&str] = &["03 0002 000000 000201 0004", "00 00000101"];

/// FDSelect whose ranges are not in the order of their first glyphs, as the Note requires.
pub const FALLING: &str = "03 0002 000201 000000 0004";

/// An `FDSelect`, the number of glyphs of its font, a glyph, and its Font DICT. A range may go on past the last glyph.
pub const SELECTED: &[(&str, usize, usize, Option<usize>)] = &[
    ("03 0001 0000 05 0064", 1, 0, Some(5)),
    ("03 0001 0000 05 0064", 1, 1, None),
    ("03 0001 0000 05 0064", 1, 50, None),
    ("03 0001 0000 05 0064", 100, 50, Some(5)),
    ("00 05", 1, 0, Some(5)),
    ("00 05", 1, 50, None),
];

/// Describes each glyph of the CID-keyed font, and none after them. The CIDs, parts and advances are those that
/// fontTools 4.38 reads. It computes no advance of an empty charstring, which has the default one by the Note.
pub const GLYPHS: &[&str] = &[
    "cid 0 part 0 bytes 1 advance 5e2 bits 32768000 5e-4 0 0 5e-4 0 0 private 3",
    "cid 10 part 0 bytes 4 advance 6e2 and -4 bits 39059456 5e-4 0 0 5e-4 0 0 private 3",
    "cid 11 part 1 bytes 5 advance -3e1 and 7 bits -1507328 1e-3 0 0 1e-3 0 0 private 2",
    "cid 100 part 1 bytes 0 advance 25e1 bits 16384000 1e-3 0 0 1e-3 0 0 private 2",
    "",
];

/// A font of five glyphs, A, alpha, B and beta after `.notdef`, up to its encoding. The last glyph has no bytes.
pub const PLAIN: &str = "01000401 000101010250 0001010112 1c00310f 1c004910 1c003a11 8d1c004712 \
        0002 0101060a 616c706861 62657461 0000 00 0022 0187 0023 0188 \
        0005 010102030405 05 0e0e0e0e 9514";

/// The same font, whose second glyph is `0 0` and an operator that the Note reserves.
pub const RESERVED: &str = "01000401 000101010250 0001010112 1c00310f 1c004b10 1c003a11 8d1c004912 \
        0002 0101060a 616c706861 62657461 0000 00 0022 0187 0023 0188 \
        0005 010102050607 07 0e8b8b020e0e 9514";

/// Fonts, their FDSelect, a limit, whether the glyphs fit it, and the rest of it. By hand: `endchar` takes a unit. In
/// the CID-keyed font the runs take 1, 4 and 2, and 3, 2 and 2 units. A fault takes as many as the longest code has
/// bytes, and one for each subroutine. A glyph that has no part takes none.
pub const FITTING: &[(&str, &str, u64, bool, u64)] = &[
    (PLAIN, "", 10, true, 6),
    (PLAIN, "", 3, false, 0),
    (RESERVED, "", 10, true, 4),
    (RESERVED, "", 4, false, 0),
    (CID, "03 0002 000000 000201 0004", 20, true, 6),
    (CID, "03 0002 000000 000201 0004", 13, false, 0),
    (CID, FALLING, 20, true, 20),
];

/// Glyphs of the CID-keyed font, a limit, the outcome of their advance within it, and the rest of the limit. By hand: the
/// runs of the glyphs 1 and 3 cost 6 units and none. There is no glyph 4.
pub const WITHIN: &[(usize, u64, &str, u64)] = &[
    (1, 7, "known", 1),
    (1, 4, "too long", 0),
    (1, 0, "too long", 0),
    (3, 1, "known", 1),
    (4, 5, "unknown", 5),
];

/// Encodings, and the codes that have a glyph by them, or the error. Those without supplements are as fontTools 4.38
/// reads them, except if a code occurs twice or has no such glyph.
pub const CODES: &[(&str, &str)] = &[
    ("00 02 4142", " 65:1 66:2"),
    ("01 04 4100 4200 4300 4400", " 65:1 66:2 67:3 68:4"),
    // The range of the Note's example, and its last code, which has no glyph here.
    ("01 01 3303", " 51:1 52:2 53:3 54:4"),
    ("01 01 3304", " 51:1 52:2 53:3 54:4"),
    // A code that occurs twice has the first glyph.
    ("00 03 414241", " 65:1 66:2"),
    // Supplements of either format, by the names B, beta and alpha.
    ("80 01 41 02 420023 610188", " 65:1 66:3 97:4"),
    ("81 01 3301 01 410187", " 51:1 52:2 65:2"),
    // A supplement goes before the format. The first of two counts. A supplement whose name no glyph has gives none.
    ("80 01 41 01 410023", " 65:3"),
    ("80 01 41 02 420023 420188", " 65:1 66:3"),
    ("80 01 41 01 410001", ""),
    // No codes at all. Broken ones make only the encoding an error.
    ("00 00", ""),
    ("", " fault 1"),
    ("00", " fault 1"),
    ("02 00", " fault 16"),
    ("00 03 4142", " fault 1"),
    ("01 02 330341", " fault 1"),
    ("80 01 41", " fault 1"),
    ("80 01 41 02 420023 6101", " fault 1"),
];

/// A CID-keyed font of four glyphs, whose CIDs 0, 34, 35 and 36 are, as SIDs, `.notdef`, A, B and C. It has no
/// encoding, so the default is the standard one, by which 65 is the code of A.
pub const CIDS_OF_LETTERS: &str = "01000404 0001 02 0001 0002 46 0001 02 0001 0028 \
        1d00000187 1d00000188 8b 0c1e 1d00000052 0f 1d00000059 11 1d00000085 0c24 1d00000080 0c25 \
        0002 02 0001 0006 000e 41646f6265 4964656e74697479 0000 00 0022 0023 0024 \
        0004 02 0001 0002 000a 0012 0019 0e 959515bd06bd070e 9f9f15c706c7070e 8b8b15efef050e 9214 \
        00 00000001 0002 02 0001 000c 0017 1d000000021d0000007e12 1d000000021d0000007e12";

/// A font of four glyphs. Its charset is one range of format 1, with the SIDs from 34 on for the glyphs from 1 on. The
/// byte at offset 49 is the number of glyphs after the first. The CharStrings INDEX is right after it.
pub const RANGE: &str = "01000404 0001 02 0001 0002 46 0001 02 0001 0018 \
        1d0000002e 0f 1d00000032 11 1d00000002 1d00000056 12 0000 0000 01 0022 02 \
        0004 02 0001 0002 000a 0012 0018 0e 959515bd06bd070e 9f9f15c706c7070e 8e8fccf7550e 9214";

/// An offset in that font and its byte, the SID of the last glyph, and the one that would follow. That is by the range,
/// by the bytes after it, by its own length, or by the predefined charsets (Technical Note 5176, Appendix C).
pub const LASTS: &[(usize, u8, u16, u16)] = &[
    (49, 2, 36, 4),
    (49, 9, 36, 38),
    (23, 0, 3, 4),
    (23, 1, 230, 231),
    (23, 2, 232, 235),
];

/// A CID-keyed font of two glyphs, each with its own Font DICT, of which only the second has a FontMatrix. The
/// FontMatrix of the font is 0.002. The second byte of its operator is at offset 35.
pub const MATRICES: &str =
    "01000401 000101010243 0001010128 f81bf81c8b0c1e 1ea002ff8b8b1ea002ff8b8b0c07 \
        1c004b0f1c0050111c00580c241c00720c25 0002 0101060e 41646f62654964656e74697479 0000 \
        02 00010000 000201010203 0e0e 000201010415 8b8b12 1ea0005f8b8b1ea0005f8b8b0c078b8b12 00 0001";

/// An offset in the plain font, the new value of its byte, and the error of the font.
pub const REFUSED: &[(usize, u8, u8)] = &[
    // The header is past the end, offsets of no byte, and an operator that is unknown.
    (2, 0xff, 1),
    (6, 0x00, 5),
    (15, 0x16, 9),
    // No CharStrings, their offset negative, and their offset past the end.
    (26, 0x02, 14),
    (24, 0xff, 15),
    (24, 0x7f, 1),
    // A Private DICT of negative size, and one past the end.
    (27, 0x8a, 15),
    (29, 0x7f, 1),
];

/// An offset in the plain font, the new value of its byte, and the error of only its charset.
pub const BROKEN: &[(usize, u8, u8)] = &[
    (49, 0x03, 11),
    (16, 0xff, 15),
    (16, 0x7f, 1),
    (3, 0x01, 0),
];
