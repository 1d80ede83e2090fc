// avar's map of an axis, applied to a normalised value.
ghost use Rattle.std.specs.Prelude.{◌≡◌, ◌+◌, ◌*◌, ◌^◌, ◌<◌, ◌≤◌, length};
ghost use Rattle.readers.specs.Outcome.{value};
ghost use Rattle.readers.specs.Reading.{run};
ghost use Rattle.opentype.specs.Avar.{map_at, segment_map, pair_at, between, applied, adjusted};
ghost use Rattle.axes.specs.AxisAnswers.{map_of, map_outcome, pair_of};

use numbers::{F2Dot14, Fixed, muldiv};
use readers::{FromBeData, Refusal, read};

// Where the pairs of an axis's map start, and how many they are.
#[derive(Clone, Copy)]
struct SegmentMap {
    start: usize,
    count: u16,
}

// A pair of a map, in 16.16.
#[derive(Clone, Copy)]
struct AxisValueMap {
    from: Fixed,
    to: Fixed,
}

// The map at a position: all of its pairs must be there.
fn map_at(font: &[u8], at: usize) -> Result<SegmentMap, Refusal>
    requires { at < 2 ^ 48 }
    ensures { map_outcome result ≡ run font.now (map_at at) }
{
    let count: u16 = read(font, at)?;
    let start = at + 2;
    if font.len() < start + 4 * usize::from(count) {
        return Err(Refusal::Short);
    }
    Ok(SegmentMap { start, count })
}

// The map of an axis, after those of the earlier ones.
fn segment_map(font: &[u8], avar: u32, axis: u16) -> Result<SegmentMap, Refusal>
    ensures { map_outcome result ≡ run font.now (segment_map avar axis) }
{
    let base = avar as usize;
    let axes: u16 = read(font, base + 6)?;
    if axis >= axes {
        return Err(Refusal::Index);
    }
    let mut at = base + 8;
    for _ in 0..axis {
        let count: u16 = read(font, at)?;
        at += 2 + 4 * usize::from(count);
    }
    map_at(font, at)
}

fn pair_at(font: &[u8], at: usize) -> AxisValueMap
    requires { at + 4 ≤ length font.now }
    ensures { value (pair_of result) ≡ run font.now (pair_at at) }
{
    AxisValueMap {
        from: F2Dot14::from_be_data(font, at).into(),
        to: F2Dot14::from_be_data(font, at + 2).into(),
    }
}

// A value between two pairs.
fn between(before: AxisValueMap, pair: AxisValueMap, value: Fixed) -> Fixed
    ensures { result.0 ≡ between (pair_of before) (pair_of pair) value.0 }
{
    before.to
        + muldiv(
            pair.to - before.to,
            value - before.from,
            pair.from - before.from,
        )
}

// A map applied to a value.
fn apply(font: &[u8], map: SegmentMap, coord: Fixed) -> Fixed
    requires { map.start + 4 * map.count ≤ length font.now }
    ensures { value result.0 ≡ run font.now (applied (map_of map) coord.0) }
{
    let mut before = AxisValueMap {
        from: Fixed::ZERO,
        to: Fixed::ZERO,
    };
    for k in 0..map.count {
        let pair = pair_at(font, map.start + 4 * usize::from(k));
        if pair.from < coord {
            before = pair;
        } else if coord < pair.from {
            if k == 0 {
                return coord;
            }
            return between(before, pair, coord);
        } else {
            return pair.to;
        }
    }
    coord
}

// The coordinate of an axis adjusted by the avar at an offset in the font; unchanged where there is no whole map for the axis.
pub fn adjust_axis(font: &[u8], avar: u32, axis: u16, coord: Fixed) -> Fixed
    ensures { result.0 ≡ adjusted font.now avar axis coord.0 }
{
    if avar == 0 {
        return coord;
    }
    match segment_map(font, avar, axis) {
        Ok(map) => apply(font, map, coord),
        Err(_) => coord,
    }
}
