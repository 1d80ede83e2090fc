// The deltas of a glyph's advance and bearing, by HVAR or VVAR, and of a font's measures, by MVAR; each as a raw 16.16 number and as a float.
ghost use Rattle.std.specs.Prelude.{◌≡◌, pos};
ghost use Rattle.readers.specs.Answers.{outcome_fixed};
ghost use Rattle.opentype.specs.Metric.{advance, bearing, metric_delta};
ghost use Rattle.opentype.specs.Mvar.{mvar_delta};
ghost use Rattle.suolluvik.specs.Numbered.{numbered, numbered_float};

use crate::answers::answered;
use numbers::Fixed;
use readers::Refusal;
use store::metric::{advance_delta_fixed, sb_delta_fixed};
use store::mvar::mvar_delta;

// A delta as its raw number.
pub(crate) fn fixed_value(delta: Result<Fixed, Refusal>, value: &mut i32) -> u8
    ensures { (result, value.new) ≡ numbered (pos 0) (outcome_fixed delta) }
{
    answered(delta.map(|x| x.0), 0, value)
}

// A delta as a float.
pub fn float_value(delta: Result<Fixed, Refusal>, value: &mut f32) -> u8
    ensures { (result, value.new) ≡ numbered_float (outcome_fixed delta) }
{
    answered(delta.map(f32::from), 0.0, value)
}

// The delta of a glyph's advance by the HVAR or VVAR at xvar; as a 16.16 number, and as a float.
#[unsafe(no_mangle)]
pub extern "C" fn suolluvik_advance_delta_fixed(
    font: &[u8],
    xvar: u32,
    glyph_id: u16,
    coords: &[i16],
    value: &mut i32,
) -> u8
    ensures { (result, value.new) ≡ numbered (pos 0) (metric_delta font.now xvar advance glyph_id coords.now) }
{
    fixed_value(advance_delta_fixed(font, xvar, glyph_id, coords), value)
}

#[unsafe(no_mangle)]
pub extern "C" fn suolluvik_advance_delta(
    font: &[u8],
    xvar: u32,
    glyph_id: u16,
    coords: &[i16],
    value: &mut f32,
) -> u8
    ensures { (result, value.new) ≡ numbered_float (metric_delta font.now xvar advance glyph_id coords.now) }
{
    float_value(advance_delta_fixed(font, xvar, glyph_id, coords), value)
}

// The same of its left or top bearing.
#[unsafe(no_mangle)]
pub extern "C" fn suolluvik_sb_delta_fixed(
    font: &[u8],
    xvar: u32,
    glyph_id: u16,
    coords: &[i16],
    value: &mut i32,
) -> u8
    ensures { (result, value.new) ≡ numbered (pos 0) (metric_delta font.now xvar bearing glyph_id coords.now) }
{
    fixed_value(sb_delta_fixed(font, xvar, glyph_id, coords), value)
}

#[unsafe(no_mangle)]
pub extern "C" fn suolluvik_sb_delta(
    font: &[u8],
    xvar: u32,
    glyph_id: u16,
    coords: &[i16],
    value: &mut f32,
) -> u8
    ensures { (result, value.new) ≡ numbered_float (metric_delta font.now xvar bearing glyph_id coords.now) }
{
    float_value(sb_delta_fixed(font, xvar, glyph_id, coords), value)
}

// The delta of a measure, by its tag, by the MVAR at an offset, which may be 0.
#[unsafe(no_mangle)]
pub extern "C" fn suolluvik_mvar_delta_fixed<'a>(
    font: &'a [u8],
    mvar: u32,
    tag: u32,
    coords: &'a [i16],
    value: &mut i32,
) -> u8
    ensures { (result, value.new) ≡ numbered (pos 0) (mvar_delta font.now mvar tag coords.now) }
{
    fixed_value(mvar_delta(font, mvar, tag, coords), value)
}

#[unsafe(no_mangle)]
pub extern "C" fn suolluvik_mvar_delta<'a>(
    font: &'a [u8],
    mvar: u32,
    tag: u32,
    coords: &'a [i16],
    value: &mut f32,
) -> u8
    ensures { (result, value.new) ≡ numbered_float (mvar_delta font.now mvar tag coords.now) }
{
    float_value(mvar_delta(font, mvar, tag, coords), value)
}
