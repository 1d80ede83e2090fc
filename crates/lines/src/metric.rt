// The delta of a glyph's advance or bearing, by HVAR or VVAR, with the scalars of the table's store in a list.
ghost use Rattle.std.specs.Prelude.{◌≡◌, ◌+◌, ◌-◌, ◌^◌, ◌<◌, ◌≤◌, length};
ghost use Rattle.readers.specs.Reading.{big_endian, run};
ghost use Rattle.readers.specs.Answers.{outcome_as, outcome_fixed};
ghost use Rattle.opentype.specs.Metric.{map_entry, advance, bearing, float_of};
ghost use Rattle.opentype.specs.Lines.{metric_delta_with};
ghost use Rattle.lines.specs.LinesAnswers.{index_of};
ghost use Rattle.store.specs.MetricAnswers.{measure_of, place_of, place_outcome};

use crate::item::item_delta_with;
use numbers::Fixed;
use readers::{FromBeData, Refusal};
use store::metric::{Measure, Place, float_of, map_field, store_of};

// The number of 1 to 4 bytes, `more` behind the first, that end with the byte `last`: the low bytes of the word that ends there.
fn ending_in(font: &[u8], last: usize, more: u16) -> u32
    requires last_in_bounds { (3 ≤ last) × (last < length font.now) }
    requires more_bound { more ≤ 3 }
    ensures { result ≡ big_endian (more + 1) font.now (last - more) }
{
    u32::from_be_data(font, last - 3) & (u32::MAX >> (24 - 8 * (more as u32)))
}

// The outer and the inner index that the map at a position has for a glyph.
fn map_entry(font: &[u8], map: usize, glyph_id: u16) -> Result<(u32, u16), Refusal>
    requires { map < 2 ^ 34 }
    ensures { outcome_as index_of result ≡ run font.now (map_entry map glyph_id) }
{
    if font.len() < map + 4 {
        return Err(Refusal::Short);
    }
    let format = u16::from_be_data(font, map);
    let count = u16::from_be_data(font, map + 2);
    if count == 0 {
        return Err(Refusal::Arithmetic);
    }
    // a glyph past the last entry uses that
    let index = glyph_id.min(count - 1) as usize;
    // the entry's bytes behind its first
    let more = format / 16 % 4;
    let last = map + 4 + ((more as usize) + 1) * index + (more as usize);
    if font.len() <= last {
        return Err(Refusal::Short);
    }
    let entry = ending_in(font, last, more);
    let bits = (format % 16 + 1) as u32;
    Ok((
        (entry >> bits) % 0x1_0000,
        (entry & ((1 << bits) - 1)) as u16,
    ))
}

// Where the HVAR or VVAR at base has the delta of a glyph's measure.
fn place_in(font: &[u8], base: u32, measure: Measure, glyph_id: u16) -> Result<Place, Refusal>
    ensures { place_outcome result ≡ run font.now (place_of base (measure_of measure) glyph_id) }
{
    let store = store_of(font, base)?;
    let field = (base as usize) + map_field(measure);
    if font.len() < field + 4 {
        return Err(Refusal::Short);
    }
    let offset = u32::from_be_data(font, field);
    if offset != 0 {
        let (outer, inner) = map_entry(font, (base as usize) + (offset as usize), glyph_id)?;
        return Ok(Place {
            store,
            outer,
            inner,
        });
    }
    match measure {
        Measure::Advance => Ok(Place {
            store,
            outer: 0,
            inner: glyph_id,
        }),
        Measure::Bearing => Err(Refusal::Absent),
    }
}

// The delta of a glyph's measure, by the HVAR or VVAR at base.
pub fn metric_delta_with(
    font: &[u8],
    base: u32,
    measure: Measure,
    glyph_id: u16,
    scalars: &[i32],
) -> Result<Fixed, Refusal>
    ensures { outcome_fixed result ≡ metric_delta_with font.now base (measure_of measure) glyph_id scalars.now }
{
    let place = place_in(font, base, measure, glyph_id)?;
    item_delta_with(font, place.store, place.outer, place.inner, scalars)
}

// The delta of an advance, as an answer and as a float: a name each, as swash has them.
pub fn advance_delta_fixed_with(
    font: &[u8],
    xvar: u32,
    glyph_id: u16,
    scalars: &[i32],
) -> Result<Fixed, Refusal>
    ensures { outcome_fixed result ≡ metric_delta_with font.now xvar advance glyph_id scalars.now }
{
    metric_delta_with(font, xvar, Measure::Advance, glyph_id, scalars)
}

pub fn advance_delta_with(font: &[u8], xvar: u32, glyph_id: u16, scalars: &[i32]) -> f32
    ensures { result ≡ float_of (metric_delta_with font.now xvar advance glyph_id scalars.now) }
{
    float_of(advance_delta_fixed_with(font, xvar, glyph_id, scalars))
}

// The delta of a side bearing, in the same way.
pub fn sb_delta_fixed_with(
    font: &[u8],
    xvar: u32,
    glyph_id: u16,
    scalars: &[i32],
) -> Result<Fixed, Refusal>
    ensures { outcome_fixed result ≡ metric_delta_with font.now xvar bearing glyph_id scalars.now }
{
    metric_delta_with(font, xvar, Measure::Bearing, glyph_id, scalars)
}

pub fn sb_delta_with(font: &[u8], xvar: u32, glyph_id: u16, scalars: &[i32]) -> f32
    ensures { result ≡ float_of (metric_delta_with font.now xvar bearing glyph_id scalars.now) }
{
    float_of(sb_delta_fixed_with(font, xvar, glyph_id, scalars))
}
