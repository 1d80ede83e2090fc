// Deltas with the scalars of a store's regions in a lent list (W-204), and where the stores are, for filling. Filling itself, and the float of an advance, which a line of type asks for at each glyph, stand in a
// crate of their own, `suolluvik_line`.
ghost use Rattle.std.specs.Prelude.{◌≡◌, pos};
ghost use Rattle.readers.specs.Reading.{run};
ghost use Rattle.opentype.specs.Metric.{advance, bearing, store_of};
ghost use Rattle.opentype.specs.Lines.{metric_delta_with, mvar_store, mvar_delta_with};
ghost use Rattle.suolluvik.specs.Numbered.{numbered, numbered_float};

use crate::answers::answered;
use crate::deltas::{fixed_value, float_value};
use lines::metric::{advance_delta_fixed_with, sb_delta_fixed_with};
use lines::mvar::{mvar_delta_with, mvar_store};
use store::metric::store_of;

// Where the store of the HVAR or VVAR at xvar is.
#[unsafe(no_mangle)]
pub extern "C" fn suolluvik_store_offset(font: &[u8], xvar: u32, value: &mut u32) -> u8
    ensures { (result, value.new) ≡ numbered 0 (run font.now (store_of xvar)) }
{
    answered(store_of(font, xvar), 0, value)
}

// Where the store of the MVAR at an offset is, counted from the MVAR's start.
#[unsafe(no_mangle)]
pub extern "C" fn suolluvik_mvar_store_offset(font: &[u8], mvar: u32, value: &mut u32) -> u8
    ensures { (result, value.new) ≡ numbered 0 (mvar_store font.now mvar) }
{
    answered(mvar_store(font, mvar).map(u32::from), 0, value)
}

// The delta of a glyph's advance, as a 16.16 number.
#[unsafe(no_mangle)]
pub extern "C" fn suolluvik_advance_delta_fixed_with(
    font: &[u8],
    xvar: u32,
    glyph_id: u16,
    scalars: &[i32],
    value: &mut i32,
) -> u8
    ensures { (result, value.new) ≡ numbered (pos 0) (metric_delta_with font.now xvar advance glyph_id scalars.now) }
{
    fixed_value(
        advance_delta_fixed_with(font, xvar, glyph_id, scalars),
        value,
    )
}

// The delta of its left or top bearing; as a 16.16 number, and as a float.
#[unsafe(no_mangle)]
pub extern "C" fn suolluvik_sb_delta_fixed_with(
    font: &[u8],
    xvar: u32,
    glyph_id: u16,
    scalars: &[i32],
    value: &mut i32,
) -> u8
    ensures { (result, value.new) ≡ numbered (pos 0) (metric_delta_with font.now xvar bearing glyph_id scalars.now) }
{
    fixed_value(sb_delta_fixed_with(font, xvar, glyph_id, scalars), value)
}

#[unsafe(no_mangle)]
pub extern "C" fn suolluvik_sb_delta_with(
    font: &[u8],
    xvar: u32,
    glyph_id: u16,
    scalars: &[i32],
    value: &mut f32,
) -> u8
    ensures { (result, value.new) ≡ numbered_float (metric_delta_with font.now xvar bearing glyph_id scalars.now) }
{
    float_value(sb_delta_fixed_with(font, xvar, glyph_id, scalars), value)
}

// The delta of a measure, by its tag, by the MVAR at an offset, which may be 0.
#[unsafe(no_mangle)]
pub extern "C" fn suolluvik_mvar_delta_fixed_with(
    font: &[u8],
    mvar: u32,
    tag: u32,
    scalars: &[i32],
    value: &mut i32,
) -> u8
    ensures { (result, value.new) ≡ numbered (pos 0) (mvar_delta_with font.now mvar tag scalars.now) }
{
    fixed_value(mvar_delta_with(font, mvar, tag, scalars), value)
}

#[unsafe(no_mangle)]
pub extern "C" fn suolluvik_mvar_delta_with(
    font: &[u8],
    mvar: u32,
    tag: u32,
    scalars: &[i32],
    value: &mut f32,
) -> u8
    ensures { (result, value.new) ≡ numbered_float (mvar_delta_with font.now mvar tag scalars.now) }
{
    float_value(mvar_delta_with(font, mvar, tag, scalars), value)
}
