// The exports of `suolluvik::scalars`, for C: each calls it and has its contract.
ghost use Rattle.std.specs.Prelude.{◌≡◌, pos};
ghost use Rattle.readers.specs.Reading.{run};
ghost use Rattle.opentype.specs.Metric.{advance, bearing, store_of};
ghost use Rattle.opentype.specs.Lines.{metric_delta_with, mvar_store, mvar_delta_with};
ghost use Rattle.suolluvik.specs.Numbered.{numbered, numbered_float};

#[unsafe(no_mangle)]
pub extern "C" fn suolluvik_store_offset(font: &[u8], xvar: u32, value: &mut u32) -> u8
    ensures { (result, value.new) ≡ numbered 0 (run font.now (store_of xvar)) }
{
    suolluvik::scalars::suolluvik_store_offset(font, xvar, value)
}

#[unsafe(no_mangle)]
pub extern "C" fn suolluvik_mvar_store_offset(font: &[u8], mvar: u32, value: &mut u32) -> u8
    ensures { (result, value.new) ≡ numbered 0 (mvar_store font.now mvar) }
{
    suolluvik::scalars::suolluvik_mvar_store_offset(font, mvar, value)
}

#[unsafe(no_mangle)]
pub extern "C" fn suolluvik_advance_delta_fixed_with(
    font: &[u8],
    xvar: u32,
    glyph_id: u16,
    scalars: &[i32],
    value: &mut i32,
) -> u8
    ensures { (result, value.new) ≡ numbered (pos 0) (metric_delta_with font.now xvar advance glyph_id scalars.now) }
{
    suolluvik::scalars::suolluvik_advance_delta_fixed_with(font, xvar, glyph_id, scalars, value)
}

#[unsafe(no_mangle)]
pub extern "C" fn suolluvik_sb_delta_fixed_with(
    font: &[u8],
    xvar: u32,
    glyph_id: u16,
    scalars: &[i32],
    value: &mut i32,
) -> u8
    ensures { (result, value.new) ≡ numbered (pos 0) (metric_delta_with font.now xvar bearing glyph_id scalars.now) }
{
    suolluvik::scalars::suolluvik_sb_delta_fixed_with(font, xvar, glyph_id, scalars, value)
}

#[unsafe(no_mangle)]
pub extern "C" fn suolluvik_sb_delta_with(
    font: &[u8],
    xvar: u32,
    glyph_id: u16,
    scalars: &[i32],
    value: &mut f32,
) -> u8
    ensures { (result, value.new) ≡ numbered_float (metric_delta_with font.now xvar bearing glyph_id scalars.now) }
{
    suolluvik::scalars::suolluvik_sb_delta_with(font, xvar, glyph_id, scalars, value)
}

#[unsafe(no_mangle)]
pub extern "C" fn suolluvik_mvar_delta_fixed_with(
    font: &[u8],
    mvar: u32,
    tag: u32,
    scalars: &[i32],
    value: &mut i32,
) -> u8
    ensures { (result, value.new) ≡ numbered (pos 0) (mvar_delta_with font.now mvar tag scalars.now) }
{
    suolluvik::scalars::suolluvik_mvar_delta_fixed_with(font, mvar, tag, scalars, value)
}

#[unsafe(no_mangle)]
pub extern "C" fn suolluvik_mvar_delta_with(
    font: &[u8],
    mvar: u32,
    tag: u32,
    scalars: &[i32],
    value: &mut f32,
) -> u8
    ensures { (result, value.new) ≡ numbered_float (mvar_delta_with font.now mvar tag scalars.now) }
{
    suolluvik::scalars::suolluvik_mvar_delta_with(font, mvar, tag, scalars, value)
}
