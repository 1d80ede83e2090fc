// The exports of `suolluvik::deltas`, for C: each calls it and has its contract.
ghost use Rattle.std.specs.Prelude.{◌≡◌, pos};
ghost use Rattle.opentype.specs.Metric.{advance, bearing, metric_delta};
ghost use Rattle.opentype.specs.Mvar.{mvar_delta};
ghost use Rattle.suolluvik.specs.Numbered.{numbered, numbered_float};

#[unsafe(no_mangle)]
pub extern "C" fn suolluvik_advance_delta_fixed(
    font: &[u8],
    xvar: u32,
    glyph_id: u16,
    coords: &[i16],
    value: &mut i32,
) -> u8
    ensures { (result, value.new) ≡ numbered (pos 0) (metric_delta font.now xvar advance glyph_id coords.now) }
{
    suolluvik::deltas::suolluvik_advance_delta_fixed(font, xvar, glyph_id, coords, value)
}

#[unsafe(no_mangle)]
pub extern "C" fn suolluvik_advance_delta(
    font: &[u8],
    xvar: u32,
    glyph_id: u16,
    coords: &[i16],
    value: &mut f32,
) -> u8
    ensures { (result, value.new) ≡ numbered_float (metric_delta font.now xvar advance glyph_id coords.now) }
{
    suolluvik::deltas::suolluvik_advance_delta(font, xvar, glyph_id, coords, value)
}

#[unsafe(no_mangle)]
pub extern "C" fn suolluvik_sb_delta_fixed(
    font: &[u8],
    xvar: u32,
    glyph_id: u16,
    coords: &[i16],
    value: &mut i32,
) -> u8
    ensures { (result, value.new) ≡ numbered (pos 0) (metric_delta font.now xvar bearing glyph_id coords.now) }
{
    suolluvik::deltas::suolluvik_sb_delta_fixed(font, xvar, glyph_id, coords, value)
}

#[unsafe(no_mangle)]
pub extern "C" fn suolluvik_sb_delta(
    font: &[u8],
    xvar: u32,
    glyph_id: u16,
    coords: &[i16],
    value: &mut f32,
) -> u8
    ensures { (result, value.new) ≡ numbered_float (metric_delta font.now xvar bearing glyph_id coords.now) }
{
    suolluvik::deltas::suolluvik_sb_delta(font, xvar, glyph_id, coords, value)
}

#[unsafe(no_mangle)]
pub extern "C" fn suolluvik_mvar_delta_fixed<'a>(
    font: &'a [u8],
    mvar: u32,
    tag: u32,
    coords: &'a [i16],
    value: &mut i32,
) -> u8
    ensures { (result, value.new) ≡ numbered (pos 0) (mvar_delta font.now mvar tag coords.now) }
{
    suolluvik::deltas::suolluvik_mvar_delta_fixed(font, mvar, tag, coords, value)
}

#[unsafe(no_mangle)]
pub extern "C" fn suolluvik_mvar_delta<'a>(
    font: &'a [u8],
    mvar: u32,
    tag: u32,
    coords: &'a [i16],
    value: &mut f32,
) -> u8
    ensures { (result, value.new) ≡ numbered_float (mvar_delta font.now mvar tag coords.now) }
{
    suolluvik::deltas::suolluvik_mvar_delta(font, mvar, tag, coords, value)
}
