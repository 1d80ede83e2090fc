// The delta of a glyph's advance or bearing, from HVAR or VVAR. Font, table, glyph and coordinates are handed over one by one, here and in the crates above, as swash does: over a struct
// that holds references the theorems of one answer would have no plain statement (DECISIONS 49).
ghost use Rattle.std.specs.Prelude.{◌≡◌, ◌+◌, ◌-◌, ◌*◌, ◌^◌, ◌<◌, ◌≤◌, min};
ghost use Rattle.readers.specs.Reading.{run, unsigned_at};
ghost use Rattle.readers.specs.Answers.{outcome, outcome_fixed};
ghost use Rattle.opentype.specs.Item.{item_delta};
ghost use Rattle.opentype.specs.Metric.{advance, bearing, map_field, map_entry, store_of, delta_set_index_at, metric_delta, float_of};
ghost use Rattle.store.specs.MetricAnswers.{measure_of, delta_set_outcome, place_of, place_outcome};

use crate::item::item_delta;
use numbers::Fixed;
use readers::{Refusal, U24, read};

// Which of a glyph's measures: advance width or height; left or top bearing.
#[derive(Clone, Copy)]
pub enum Measure {
    Advance,
    Bearing,
}

// Where a store has a delta.
#[derive(Clone, Copy)]
struct DeltaSetIndex {
    outer: u32,
    inner: u16,
}

// Where the delta of a measure is: a store, and the index of a delta set in it.
#[derive(Clone, Copy)]
pub struct Place {
    pub store: u32,
    pub outer: u32,
    pub inner: u16,
}

impl Place {
    // The delta there (DECISIONS 78).
    fn delta(self, font: &[u8], coords: &[i16]) -> Result<Fixed, Refusal>
        ensures { outcome_fixed result ≡ item_delta font.now self.store self.outer self.inner coords.now }
    {
        item_delta(font, self.store, self.outer, self.inner, coords)
    }
}

// Where the store of a table at base is.
pub fn store_of(font: &[u8], base: u32) -> Result<u32, Refusal>
    ensures { outcome result ≡ run font.now (store_of base) }
{
    if base == 0 {
        return Err(Refusal::Absent);
    }
    let offset = read::<u32>(font, (base as usize) + 4)?;
    if offset == 0 {
        return Err(Refusal::Absent);
    }
    offset.checked_add(base).ok_or(Refusal::Arithmetic)
}

// Entry `index` of the entries at a position, each of `size` bytes.
fn entry_at(font: &[u8], at: usize, size: u16, index: u16) -> Result<u32, Refusal>
    requires at_bound { at < 2 ^ 40 }
    requires size_bound { (1 ≤ size) × (size ≤ 4) }
    ensures { outcome result ≡ run font.now (unsigned_at size (at + size * index)) }
{
    let p = at + (size as usize) * (index as usize);
    match size {
        1 => Ok(read::<u8>(font, p)? as u32),
        2 => Ok(read::<u16>(font, p)? as u32),
        3 => Ok(read::<U24>(font, p)?.0),
        4 => read(font, p),
        _ => unreachable!(),
    }
}

// The entry of a glyph in the map at a position.
fn map_entry(font: &[u8], at: usize, glyph_id: u16) -> Result<DeltaSetIndex, Refusal>
    requires { at < 2 ^ 34 }
    ensures { delta_set_outcome result ≡ run font.now (map_entry at glyph_id) }
{
    let format = read::<u16>(font, at)?;
    let count = read::<u16>(font, at + 2)?;
    if count == 0 {
        return Err(Refusal::Arithmetic);
    }
    // a glyph past the last entry uses that
    let index = glyph_id.min(count - 1);
    let entry = entry_at(font, at + 4, format / 16 % 4 + 1, index)?;
    let bits = (format % 16 + 1) as u32;
    Ok(DeltaSetIndex {
        outer: (entry >> bits) % 0x1_0000,
        inner: (entry & ((1 << bits) - 1)) as u16,
    })
}

// Where a table has the offset of a measure's map.
pub fn map_field(measure: Measure) -> usize
    ensures { (result ≡ map_field (measure_of measure)) × (result ≤ 12) }
{
    match measure {
        Measure::Advance => 8,
        Measure::Bearing => 12,
    }
}

// The delta-set index of a glyph: without a map, an advance is found by the glyph itself.
fn delta_set(
    font: &[u8],
    base: u32,
    measure: Measure,
    glyph_id: u16,
) -> Result<DeltaSetIndex, Refusal>
    ensures { delta_set_outcome result ≡ run font.now (delta_set_index_at base (measure_of measure) glyph_id) }
{
    let offset = read::<u32>(font, (base as usize) + map_field(measure))?;
    if offset != 0 {
        return map_entry(font, (base as usize) + (offset as usize), glyph_id);
    }
    match measure {
        Measure::Advance => Ok(DeltaSetIndex {
            outer: 0,
            inner: glyph_id,
        }),
        Measure::Bearing => Err(Refusal::Absent),
    }
}

// Where the HVAR or VVAR at base has the delta of a glyph's measure.
fn place_of(font: &[u8], base: u32, measure: Measure, glyph_id: u16) -> Result<Place, Refusal>
    ensures { place_outcome result ≡ run font.now (place_of base (measure_of measure) glyph_id) }
{
    let store = store_of(font, base)?;
    let index = delta_set(font, base, measure, glyph_id)?;
    Ok(Place {
        store,
        outer: index.outer,
        inner: index.inner,
    })
}

// The delta of a glyph's measure, by the HVAR or VVAR at base.
pub fn metric_delta(
    font: &[u8],
    base: u32,
    measure: Measure,
    glyph_id: u16,
    coords: &[i16],
) -> Result<Fixed, Refusal>
    ensures { outcome_fixed result ≡ metric_delta font.now base (measure_of measure) glyph_id coords.now }
{
    place_of(font, base, measure, glyph_id)?.delta(font, coords)
}

// A delta as swash hands it out: 0.0 on any refusal.
pub fn float_of(delta: Result<Fixed, Refusal>) -> f32
    ensures { result ≡ float_of (outcome_fixed delta) }
{
    match delta {
        Ok(x) => f32::from(x),
        Err(_) => 0.0,
    }
}

// The delta of an advance, as an answer and as a float. Written out, and not by `metric_delta`: DECISIONS 78.
pub fn advance_delta_fixed(
    font: &[u8],
    xvar: u32,
    glyph_id: u16,
    coords: &[i16],
) -> Result<Fixed, Refusal>
    ensures { outcome_fixed result ≡ metric_delta font.now xvar advance glyph_id coords.now }
{
    place_of(font, xvar, Measure::Advance, glyph_id)?.delta(font, coords)
}

pub fn advance_delta(font: &[u8], xvar: u32, glyph_id: u16, coords: &[i16]) -> f32
    ensures { result ≡ float_of (metric_delta font.now xvar advance glyph_id coords.now) }
{
    float_of(advance_delta_fixed(font, xvar, glyph_id, coords))
}

// The delta of a side bearing, in the same way.
pub fn sb_delta_fixed(
    font: &[u8],
    xvar: u32,
    glyph_id: u16,
    coords: &[i16],
) -> Result<Fixed, Refusal>
    ensures { outcome_fixed result ≡ metric_delta font.now xvar bearing glyph_id coords.now }
{
    place_of(font, xvar, Measure::Bearing, glyph_id)?.delta(font, coords)
}

pub fn sb_delta(font: &[u8], xvar: u32, glyph_id: u16, coords: &[i16]) -> f32
    ensures { result ≡ float_of (metric_delta font.now xvar bearing glyph_id coords.now) }
{
    float_of(sb_delta_fixed(font, xvar, glyph_id, coords))
}
