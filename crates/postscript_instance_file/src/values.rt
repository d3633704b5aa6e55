//! Numbers of tables, and their variations (OpenType 1.9, "MVAR - Metrics Variations Table").
ghost use Rattle.std.specs.Prelude.{◌≡◌, length};

use postscript_base::index::number::number_within;
use postscript_variation::{MetricVariations, in_whole};

/// A two-byte number that varies: its tag in `MVAR`, and its offset in its table.
pub(crate) type Entry = ([u8; 4], usize);

/// The tags of unsigned numbers.
const UNSIGNED: [[u8; 4]; 2] = [*b"hcla", *b"hcld"];

/// The numbers of the `OS/2` table.
pub(crate) const OS2: [Entry; 17] = [
    (*b"sbxs", 10),
    (*b"sbys", 12),
    (*b"sbxo", 14),
    (*b"sbyo", 16),
    (*b"spxs", 18),
    (*b"spys", 20),
    (*b"spxo", 22),
    (*b"spyo", 24),
    (*b"strs", 26),
    (*b"stro", 28),
    (*b"hasc", 68),
    (*b"hdsc", 70),
    (*b"hlgp", 72),
    (*b"hcla", 74),
    (*b"hcld", 76),
    (*b"xhgt", 86),
    (*b"cpht", 88),
];

/// The numbers of the `hhea` table.
pub(crate) const HHEA: [Entry; 3] = [(*b"hcrs", 18), (*b"hcrn", 20), (*b"hcof", 22)];

/// The numbers of the `vhea` table.
pub(crate) const VHEA: [Entry; 6] = [
    (*b"vasc", 4),
    (*b"vdsc", 6),
    (*b"vlgp", 8),
    (*b"vcrs", 18),
    (*b"vcrn", 20),
    (*b"vcof", 22),
];

/// The numbers of the `post` table.
pub(crate) const POST: [Entry; 2] = [(*b"undo", 8), (*b"unds", 10)];

/// Returns a two-byte number, or 0 if the table is truncated.
pub(crate) fn word(table: &[u8], place: usize) -> u16 {
    u16::try_from(number_within(table, place, 2).unwrap_or(0)).unwrap_or(0)
}

/// Writes a two-byte number, if it is within the table.
pub(crate) fn set_word(table: &mut Vec<u8>, place: usize, number: u16)
    ensures { length table.new.items ≡ length table.old.items }
{
    let [high, low] = number.to_be_bytes();
    if place.saturating_add(2) > table.len() {
        return;
    }
    if let Some(byte) = table.get_mut(place) {
        *byte = high;
    }
    if let Some(byte) = table.get_mut(place.saturating_add(1)) {
        *byte = low;
    }
}

/// Writes a signed number, clamped to two bytes.
pub(crate) fn set_signed(table: &mut Vec<u8>, place: usize, number: i64)
    ensures { length table.new.items ≡ length table.old.items }
{
    let number = number.max(-32768).min(32767) as i16;
    set_word(table, place, number.cast_unsigned());
}

/// Writes an unsigned number, clamped to two bytes.
pub(crate) fn set_unsigned(table: &mut Vec<u8>, place: usize, number: i64)
    ensures { length table.new.items ≡ length table.old.items }
{
    set_word(table, place, number.max(0).min(65535) as u16);
}

/// Adds a delta to a number.
fn add(table: &mut Vec<u8>, entry: &Entry, difference: i64)
    ensures { length table.new.items ≡ length table.old.items }
{
    let (tag, place) = *entry;
    let old = word(table, place);
    if UNSIGNED.contains(&tag) {
        set_unsigned(table, place, i64::from(old).saturating_add(difference));
    } else {
        let old = i64::from(old.cast_signed());
        set_signed(table, place, old.saturating_add(difference));
    }
}

/// Adds the deltas at normalized coordinates to the numbers of a table, rounded to the nearest unit.
pub(crate) fn vary(
    table: &mut Vec<u8>,
    entries: &[Entry],
    metrics: &Option<MetricVariations<'_>>,
    coordinates: &[i16],
)
    ensures { length table.new.items ≡ length table.old.items }
{
    let Some(metrics) = metrics else {
        return;
    };
    for entry in entries {
        if let Some(total) = metrics.variation(u32::from_be_bytes(entry.0), coordinates) {
            add(table, entry, in_whole(total));
        }
    }
}
