//! Tables as fontTools 4.38 writes them, and its results for them. Coordinates in 16.16 are computed by hand.
use crate::checks::{holds, holds_at};
use postscript_variation::{
    AdvanceVariations, Axes, Error, FULL, Maps, MetricVariations, Result, Setting, Span, Store,
    in_whole,
};
use std::alloc::Global;
use std::process::Abort;

/// Axes: wght 100, 400, 900, and wdth 75, 100, 125, hidden. An instance of wght 700 and wdth 87.5 with a PostScript
/// name.
const FVAR: &[u8] = &[
    0x00, 0x01, 0x00, 0x00, 0x00, 0x10, 0x00, 0x02, 0x00, 0x02, 0x00, 0x14, 0x00, 0x01, 0x00, 0x0e,
    0x77, 0x67, 0x68, 0x74, 0x00, 0x64, 0x00, 0x00, 0x01, 0x90, 0x00, 0x00, 0x03, 0x84, 0x00, 0x00,
    0x00, 0x00, 0x01, 0x00, 0x77, 0x64, 0x74, 0x68, 0x00, 0x4b, 0x00, 0x00, 0x00, 0x64, 0x00, 0x00,
    0x00, 0x7d, 0x00, 0x00, 0x00, 0x01, 0x01, 0x01, 0x01, 0x02, 0x00, 0x00, 0x02, 0xbc, 0x00, 0x00,
    0x00, 0x57, 0x80, 0x00, 0x01, 0x03,
];

/// wght 0.25 becomes 0.5, and wdth stays.
const AVAR: &[u8] = &[
    0x00, 0x01, 0x00, 0x00, 0x00, 0x00, 0x00, 0x02, 0x00, 0x04, 0xc0, 0x00, 0xc0, 0x00, 0x00, 0x00,
    0x00, 0x00, 0x10, 0x00, 0x20, 0x00, 0x40, 0x00, 0x40, 0x00, 0x00, 0x03, 0xc0, 0x00, 0xc0, 0x00,
    0x00, 0x00, 0x00, 0x00, 0x40, 0x00, 0x40, 0x00,
];

/// Regions: wght from 0 to 1, and the same with wdth from 0 to -1. Delta sets: 100, -50, and 300, 7. The store is at
/// byte 20.
const HVAR: &[u8] = &[
    0x00, 0x01, 0x00, 0x00, 0x00, 0x00, 0x00, 0x14, 0x00, 0x00, 0x00, 0x00, 0x00, 0x00, 0x00, 0x00,
    0x00, 0x00, 0x00, 0x00, 0x00, 0x01, 0x00, 0x00, 0x00, 0x0c, 0x00, 0x01, 0x00, 0x00, 0x00, 0x28,
    0x00, 0x02, 0x00, 0x02, 0x00, 0x00, 0x40, 0x00, 0x40, 0x00, 0x00, 0x00, 0x00, 0x00, 0x00, 0x00,
    0x00, 0x00, 0x40, 0x00, 0x40, 0x00, 0xc0, 0x00, 0xc0, 0x00, 0x00, 0x00, 0x00, 0x02, 0x00, 0x01,
    0x00, 0x02, 0x00, 0x00, 0x00, 0x01, 0x00, 0x64, 0xce, 0x01, 0x2c, 0x07,
];

/// The same with a map of three glyphs: 1, 0, 1.
const HVAR_MAP: &[u8] = &[
    0x00, 0x01, 0x00, 0x00, 0x00, 0x00, 0x00, 0x14, 0x00, 0x00, 0x00, 0x4c, 0x00, 0x00, 0x00, 0x00,
    0x00, 0x00, 0x00, 0x00, 0x00, 0x01, 0x00, 0x00, 0x00, 0x0c, 0x00, 0x01, 0x00, 0x00, 0x00, 0x28,
    0x00, 0x02, 0x00, 0x02, 0x00, 0x00, 0x40, 0x00, 0x40, 0x00, 0x00, 0x00, 0x00, 0x00, 0x00, 0x00,
    0x00, 0x00, 0x40, 0x00, 0x40, 0x00, 0xc0, 0x00, 0xc0, 0x00, 0x00, 0x00, 0x00, 0x02, 0x00, 0x01,
    0x00, 0x02, 0x00, 0x00, 0x00, 0x01, 0x00, 0x64, 0xce, 0x01, 0x2c, 0x07, 0x00, 0x00, 0x00, 0x03,
    0x01, 0x00, 0x01,
];

/// The same store: `undo` has the first delta set, `xhgt` the second.
const MVAR: &[u8] = &[
    0x00, 0x01, 0x00, 0x00, 0x00, 0x00, 0x00, 0x08, 0x00, 0x02, 0x00, 0x1c, 0x75, 0x6e, 0x64, 0x6f,
    0x00, 0x00, 0x00, 0x00, 0x78, 0x68, 0x67, 0x74, 0x00, 0x00, 0x00, 0x01, 0x00, 0x01, 0x00, 0x00,
    0x00, 0x0c, 0x00, 0x01, 0x00, 0x00, 0x00, 0x28, 0x00, 0x02, 0x00, 0x02, 0x00, 0x00, 0x40, 0x00,
    0x40, 0x00, 0x00, 0x00, 0x00, 0x00, 0x00, 0x00, 0x00, 0x00, 0x40, 0x00, 0x40, 0x00, 0xc0, 0x00,
    0xc0, 0x00, 0x00, 0x00, 0x00, 0x02, 0x00, 0x01, 0x00, 0x02, 0x00, 0x00, 0x00, 0x01, 0x00, 0x64,
    0xce, 0x01, 0x2c, 0x07,
];

const WGHT: u32 = 0x77676874;

const WDTH: u32 = 0x77647468;

const UNDO: u32 = 0x756e646f;

const XHGT: u32 = 0x78686774;

/// A location: wght 0.5, wdth -0.5.
const PLACE: [i16; 2] = [8192, -8192];

/// A value in units of 2 ^ -16.
fn to_fixed(value: i16) -> i32 {
    i32::from(value) * 65536
}

/// The axes, an instance, and the number of maps.
#[test]
fn axes_and_instances(rt: HostRuntime) {
    let axes = Axes::read(FVAR).expect(&rt, "axes");
    let maps = Maps::read(AVAR).expect(&rt, "maps");
    let counts = [axes.len(), axes.instances(), maps.len()];
    holds(&rt, counts == [2, 1, 2], "counts");
    let wdth = axes.get(1).expect(&rt, "wdth");
    holds(&rt, wdth.tag == WDTH, "its tag");
    let values = [wdth.minimum, wdth.default, wdth.maximum];
    holds(
        &rt,
        values == [to_fixed(75), to_fixed(100), to_fixed(125)],
        "its values",
    );
    holds(
        &rt,
        wdth.flags == 1 && wdth.name == 257,
        "its flags and name",
    );
    let instance = axes.instance(0).expect(&rt, "an instance");
    holds(&rt, instance.name == 258 && instance.flags == 0, "its name");
    holds(&rt, instance.postscript_name == Some(259), "its other name");
    holds(&rt, axes.coordinate(0, 1) == Some(5734400), "its place");
}

/// The user coordinate of an axis.
fn setting(tag: u32, value: i32) -> Setting {
    Setting { tag, value }
}

/// Each row: a value of wght, and the normalized value, the mapped value, and the coordinate.
#[test]
fn coordinates(rt: HostRuntime) {
    let axes = Axes::read(FVAR).expect(&rt, "axes");
    let maps = Maps::read(AVAR).expect(&rt, "maps");
    let rows: [(i16, i32, i32, i16); 8] = [
        (50, -65536, -65536, -16384),
        (100, -65536, -65536, -16384),
        (400, 0, 0, 0),
        (402, 262, 524, 131),
        (525, 16384, 32768, 8192),
        (650, 32768, 43691, 10923),
        (900, 65536, 65536, 16384),
        (1000, 65536, 65536, 16384),
    ];
    let wght = axes.get(0).expect(&rt, "wght");
    for (i, (value, normalized, mapped, short)) in rows.iter().enumerate() {
        let at = wght.normalized(to_fixed(*value));
        holds_at(&rt, at == *normalized, "normalized", i);
        holds_at(&rt, maps.mapped(0, at) == *mapped, "mapped", i);
        let settings = [
            setting(WGHT, 0),
            setting(WDTH, 5734400),
            setting(WGHT, to_fixed(*value)),
        ];
        let mut found = [7i16; 3];
        axes.normalize(Some(maps), &settings, &mut found);
        holds_at(&rt, found == [*short, -8192, 0], "coordinates", i);
    }
    holds(&rt, axes.normalized(0, None, &[]) == 0, "the default");
}

/// A store of two delta sets, and a truncated scalar.
#[test]
fn deltas(rt: HostRuntime) {
    let store = Store::read(HVAR, 20).expect(&rt, "a store");
    let data = store.table(0).expect(&rt, "data");
    holds(&rt, store.len() == 1 && data.len() == 2, "counts");
    let scalars = [data.scalar(0, &PLACE), data.scalar(1, &PLACE)];
    holds(&rt, scalars == [Some(32768), Some(16384)], "scalars");
    let span = Span {
        start: 0,
        peak: 16209,
        end: 16384,
    };
    holds(&rt, span.scaled(FULL, 3346) == 13528, "a scalar");
}

/// The delta set by which each glyph of the rows varies.
#[test]
fn variations_of_advances(rt: HostRuntime) {
    let rows: [(&[u8], [usize; 3]); 2] = [(HVAR, [0, 1, 2]), (HVAR_MAP, [1, 0, 1])];
    let wanted = [Some(2457600), Some(9945088), None];
    for (table, items) in rows {
        let advances = AdvanceVariations::read(table).expect(&rt, "advances");
        for (glyph, item) in items.iter().enumerate() {
            let found = advances.variation(glyph, &PLACE);
            holds_at(&rt, found == wanted[*item], "an advance", glyph);
        }
    }
}

/// Each delta set of the store has two deltas, and each region two axes: four steps. There is no third delta set.
#[test]
fn steps_of_advances(rt: HostRuntime) {
    let advances = AdvanceVariations::read(HVAR).expect(&rt, "advances");
    let steps = [advances.steps(0), advances.steps(1), advances.steps(2)];
    holds(&rt, steps == [4, 4, 0], "steps");
}

#[test]
fn variations_of_metrics(rt: HostRuntime) {
    let metrics = MetricVariations::read(MVAR).expect(&rt, "metrics");
    let rows = [(UNDO, Some(2457600)), (XHGT, Some(9945088)), (WGHT, None)];
    for (i, (tag, wanted)) in rows.iter().enumerate() {
        let found = metrics.variation(*tag, &PLACE);
        holds_at(&rt, found == *wanted, "a metric", i);
    }
}

#[test]
fn whole_units(rt: HostRuntime) {
    let rows = [
        (2457600, 38),
        (9945088, 152),
        (-2457600, -37),
        (-1, 0),
        (-32769, -1),
    ];
    for (i, (total, whole)) in rows.iter().enumerate() {
        holds_at(&rt, in_whole(*total) == *whole, "whole", i);
    }
}

/// The reader for a table.
#[derive(Clone, Copy)]
enum Table {
    Fvar,
    Avar,
    Hvar,
    Mvar,
}

/// The result of a reader.
fn read(table: Table, bytes: &[u8]) -> Result<()> {
    match table {
        Table::Fvar => Axes::read(bytes).map(|_| ()),
        Table::Avar => Maps::read(bytes).map(|_| ()),
        Table::Hvar => AdvanceVariations::read(bytes).map(|_| ()),
        Table::Mvar => MetricVariations::read(bytes).map(|_| ()),
    }
}

/// A table with one byte changed.
fn with_changed_byte<R: Abort>(
    rt: &R,
    alloc: Global,
    table: &[u8],
    place: usize,
    byte: u8,
) -> Vec<u8> {
    let mut bytes = Vec::new(alloc);
    bytes.extend_from_slice(table).expect(rt, "memory");
    *bytes.get_mut(place).expect(rt, "a place") = byte;
    bytes
}

/// Truncated tables, with the number of bytes that are left.
#[test]
fn cut_tables(rt: HostRuntime) {
    let rows = [
        (Table::Fvar, FVAR, 69),
        (Table::Avar, AVAR, 39),
        (Table::Hvar, HVAR, 19),
        (Table::Hvar, HVAR, 35),
        (Table::Hvar, HVAR_MAP, 82),
        (Table::Mvar, MVAR, 27),
        (Table::Mvar, MVAR, 43),
    ];
    for (i, (table, bytes, length)) in rows.iter().enumerate() {
        let front = bytes.get(..*length).expect(&rt, "a front");
        holds_at(&rt, read(*table, bytes).is_ok(), "whole", i);
        holds_at(&rt, read(*table, front) == Err(Error::Cut), "cut", i);
    }
}

/// Tables of another format: an offset, and the new value of its byte.
#[test]
fn unknown_tables(rt: HostRuntime) {
    let rows = [
        (Table::Fvar, FVAR, 1, 2),
        (Table::Fvar, FVAR, 11, 21),
        (Table::Fvar, FVAR, 15, 11),
        (Table::Avar, AVAR, 1, 2),
        (Table::Hvar, HVAR, 1, 2),
        (Table::Hvar, HVAR, 21, 2),
        (Table::Hvar, HVAR_MAP, 76, 2),
        (Table::Mvar, MVAR, 1, 2),
        (Table::Mvar, MVAR, 7, 7),
    ];
    for (i, (table, bytes, place, byte)) in rows.iter().enumerate() {
        let other = with_changed_byte(&rt, rt.alloc(), bytes, *place, *byte);
        let found = read(*table, &other);
        holds_at(&rt, found == Err(Error::UnknownFormat), "a format", i);
    }
}

/// More axes than maps, coordinates, or regions.
#[test]
fn other_counts_of_axes(rt: HostRuntime) {
    let axes = Axes::read(FVAR).expect(&rt, "axes");
    let one = with_changed_byte(&rt, rt.alloc(), AVAR, 7, 1);
    let maps = Maps::read(&one).expect(&rt, "one map");
    let settings = [setting(WGHT, to_fixed(525)), setting(WDTH, to_fixed(110))];
    let mut found = [0i16; 2];
    axes.normalize(Some(maps), &settings, &mut found);
    holds(&rt, found == [8192, 6554], "one map");
    let advances = AdvanceVariations::read(HVAR).expect(&rt, "advances");
    let short = advances.variation(0, &[8192]);
    holds(&rt, short == Some(3276800), "one coordinate");
    let of_one = with_changed_byte(&rt, rt.alloc(), HVAR, 33, 1);
    let advances = AdvanceVariations::read(&of_one).expect(&rt, "advances");
    let none = advances.variation(0, &found);
    holds(&rt, none == Some(0), "regions of one axis");
}
