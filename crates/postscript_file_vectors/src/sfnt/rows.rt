//! OpenType files and tables in hex, with spaces.

/// A face of three records: `head`, and `maxp` twice, first of bytes past the end.
pub const FILE: &str =
    "4f54544f 0003 0000 0000 0000 68656164 00000000 0000003c 0000002c 6d617870 00000000 \
        000003e8 00000006 6d617870 00000000 00000068 00000006 00010000 00000000 00000000 \
        5f0f3cf5 0000 03e8 0000000000000000 0000000000000000 ffec ff06 03e8 02ee 00005000 \
        0003";

/// A collection of two faces without tables.
pub const COLLECTION: &str =
    "74746366 00020000 00000002 00000014 00000020 00010000 0000 0000 0000 0000 74727565 \
        0000 0000 0000 0000";

/// Files, the number of a face, and the result of opening it: the number of its tables, or the error.
pub const REFUSALS: &[(&str, usize, &str)] = &[
    ("", 0, "the file ends early"),
    ("4f5454", 0, "the file ends early"),
    ("4f54544f 0000 0000 0000", 0, "the file ends early"),
    (
        "4f54544f 0001 0000 0000 0000 68656164 00000000 0000003c 000000",
        0,
        "the file ends early",
    ),
    ("774f4646 0000 0000 0000 0000", 0, "not an OpenType file"),
    ("4f54544f", 1, "no such face"),
    ("74746366 00010000 000000", 0, "the file ends early"),
    (
        "74746366 00030000 00000001 00000010",
        0,
        "not an OpenType file",
    ),
    ("74746366 00010000 00000000", 0, "no such face"),
    (
        "74746366 00010000 00000001 000000",
        0,
        "the file ends early",
    ),
    (
        "74746366 00010000 00000001 00000010",
        0,
        "the file ends early",
    ),
    (
        "74746366 00010000 00000001 00000010 74746366 0000 0000 0000 0000",
        0,
        "not an OpenType file",
    ),
    (COLLECTION, 0, "0"),
    (COLLECTION, 1, "0"),
    (COLLECTION, 2, "no such face"),
];

/// Names: the family for Macintosh, in German and in English; a style of Unicode; a typographic family past the end,
/// and a typographic style for Macintosh.
pub const NAMES: &str =
    "0000 0006 004e 0001 0000 0000 0001 0002 0000 0003 0001 0407 0001 0002 0002 0003 0001 \
        0409 0001 0006 0004 0000 0003 0000 0002 0005 000a 0003 0001 0409 0010 0004 7fff 0001 \
        0000 0000 0011 0007 000f 418e00d60042d83dde00d8000043004b728a66746967";

/// Tables `cmap`, and characters in hex with their glyphs.
pub const MAPS: &[(&str, &str)] = &[
    // Format 4: a shift, a list of two glyphs (the second is none), an offset past the end, and the last segment.
    (
        "0000 0001 0003 0001 0000000c 0004 0034 0000 0008 0000 0000 0000 0043 0062 0070 ffff \
        0000 0041 0061 0070 ffff ffc0 0002 0000 0001 0000 0006 7000 0000 0005 0000",
        "40:0 41:1 43:3 44:0 61:7 62:0 70:0 ffff:0 10041:0",
    ),
    // Format 4: segments that overlap and decrease. The first one that contains the character gives its glyph.
    (
        "0000 0001 0000 0003 0000000c 0004 0020 0000 0004 0000 0000 0000 0060 0055 0000 0050 \
        0041 ffb1 ffdf 0000 0000",
        "41:32 4f:46 50:1 52:3 60:17 61:0",
    ),
    // Format 12: a group past the first plane, and one whose second glyph is past 65535.
    (
        "0000 0001 0003 000a 0000000c 000c 0000 00000028 00000000 00000002 0001f600 0001f602 \
        00000009 00020000 00020001 0000ffff",
        "41:0 1f600:9 1f602:11 1f603:0 20000:65535 20001:0",
    ),
    // Format 12: groups that overlap and decrease.
    (
        "0000 0001 0000 0004 0000000c 000c 0000 00000028 00000000 00000002 00000030 00000039 \
        00000005 00000020 0000007e 00000001",
        "1f:0 20:1 30:5 39:14 3a:27 7e:95 7f:0",
    ),
    // Format 6.
    (
        "0000 0001 0000 0000 0000000c 0006 000e 0000 0041 0002 0007 0009",
        "40:0 41:7 42:9 43:0",
    ),
    // The choice: all of Unicode for Windows before all others.
    (
        "0000 0003 0000 0003 0000001c 0003 0001 00000028 0003 000a 00000034 0006 000c 0000 \
        0041 0001 0001 0006 000c 0000 0041 0001 0002 0006 000c 0000 0041 0001 0003",
        "41:3",
    ),
    // The choice: all of Unicode before the first plane.
    (
        "0000 0003 0003 0001 0000001c 0000 0004 00000028 0000 0006 00000034 0006 000c 0000 \
        0041 0001 0001 0006 000c 0000 0041 0001 0002 0006 000c 0000 0041 0001 0003",
        "41:2",
    ),
    // The choice: the first plane for Windows, and no other platform.
    (
        "0000 0003 0001 0000 0000001c 0000 0003 00000028 0003 0001 00000034 0006 000c 0000 \
        0041 0001 0001 0006 000c 0000 0041 0001 0002 0006 000c 0000 0041 0001 0003",
        "41:3",
    ),
];

/// The row of a map, and all of its characters that have a glyph, by its segments, groups or row.
pub const NEXT: &[(usize, &str)] = &[
    (0, "41:1 42:2 43:3 61:7 "),
    (2, "1f600:9 1f601:10 1f602:11 20000:65535 "),
    (4, "41:7 42:9 "),
];

/// Tables `cmap` that are not readable.
pub const NO_MAPS: &[&str] = &[
    // An empty table.
    "",
    // Only Macintosh.
    "0000 0001 0001 0000 0000000c 0006 000c 0000 0041 0001 0001",
    // An offset past the end.
    "0000 0001 0003 0001 000000ff 0006 000c 0000 0041 0001 0001",
    // Format 2.
    "0000 0001 0003 0001 0000000c 0002 0000",
    // A truncated row.
    "0000 0001 0003 0001 0000000c 0006 000c 0000 0041 0002 0001",
    // A truncated group.
    "0000 0001 0003 000a 0000000c 000c 0000 00000010 00000000 00000001",
    // A truncated segment.
    "0000 0001 0003 0001 0000000c 0004 0010 0000 0002 0000 0000 0000 0000",
];

/// A `post` table of version 2.0: `.notdef`, `A` and `dcroat` of the standard Macintosh set, two strings, and a
/// truncated one.
pub const POST: &str =
    "00020000 00000000 00000000 00000000 00000000 00000000 00000000 00000000 0006 0000 0024 \
        0101 0102 0103 0104 05 616c706861 05 622e616c74 03 78";

/// `post` tables without names: truncated before the count, and after it, and one of version 3.0.
pub const NO_POSTS: &[&str] = &[
    "00020000 00000000 00000000 00000000 00000000 00000000 00000000 00000000 00",
    "00020000 00000000 00000000 00000000 00000000 00000000 00000000 00000000 0001 00",
    "00030000 00000000 00000000 00000000 00000000 00000000 00000000 00000000 0000",
];

/// `name` tables, and the tables of their subsets. Unicode and Macintosh records of name 1 say "A" or "C", a Macintosh record
/// of name 2 says "B", and a Windows record of name 1 says "A". The encoding of the Windows record is 1 or 2.
pub const TRIMMED: &[(&str, &str)] = &[
    (
        "0000 0004 0036 0000 0003 0000 0001 0002 0000 0001 0000 0000 0001 0001 0002 \
            0001 0000 0000 0002 0001 0003 0003 0001 0409 0001 0002 0000 0041 41 42",
        "0000 0002 001e 0001 0000 0000 0002 0001 0000 0003 0001 0409 0001 0002 0001 42 0041",
    ),
    (
        "0000 0004 0036 0000 0003 0000 0001 0002 0000 0001 0000 0000 0001 0001 0002 \
            0001 0000 0000 0002 0001 0003 0003 0002 0409 0001 0002 0000 0041 41 42",
        "0000 0003 002a 0000 0003 0000 0001 0002 0000 0001 0000 0000 0002 0001 0002 \
            0003 0002 0409 0001 0002 0000 0041 42",
    ),
    (
        "0000 0004 0036 0000 0003 0000 0001 0002 0000 0001 0000 0000 0001 0001 0002 \
            0001 0000 0000 0002 0001 0003 0003 0001 0409 0001 0002 0000 0041 43 42",
        "0000 0003 002a 0001 0000 0000 0001 0001 0000 0001 0000 0000 0002 0001 0001 \
            0003 0001 0409 0001 0002 0002 43 42 0041",
    ),
];
