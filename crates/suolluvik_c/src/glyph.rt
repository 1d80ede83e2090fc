// The exports of `suolluvik::glyph`, for C: each calls it and has its contract.
ghost use Rattle.std.specs.Prelude.{◌≡◌};
ghost use Rattle.metrics.specs.Scale.{zero, scale_for};
ghost use Rattle.metrics.specs.Vertical.{synthesized_from};
ghost use Rattle.suolluvik.specs.Glyph.{advance_or, origin_or, if_known, advance_width_in, left_bearing_in, advance_height_in, top_bearing_in, vertical_origin_in, materialized_advance, materialized_origin};
ghost use Rattle.suolluvik.specs.Numbered.{numbered};

#[unsafe(no_mangle)]
pub extern "C" fn suolluvik_advance_width(
    font: &[u8],
    hvar: u32,
    glyph_id: u16,
    coords: &[i16],
    unvaried: u16,
    scale: f32,
) -> f32
    ensures { result ≡ advance_width_in font.now hvar glyph_id coords.now unvaried scale }
{
    suolluvik::glyph::suolluvik_advance_width(font, hvar, glyph_id, coords, unvaried, scale)
}

#[unsafe(no_mangle)]
pub extern "C" fn suolluvik_lsb(
    font: &[u8],
    hvar: u32,
    glyph_id: u16,
    coords: &[i16],
    unvaried: i16,
    scale: f32,
) -> f32
    ensures { result ≡ left_bearing_in font.now hvar glyph_id coords.now unvaried scale }
{
    suolluvik::glyph::suolluvik_lsb(font, hvar, glyph_id, coords, unvaried, scale)
}

#[unsafe(no_mangle)]
pub extern "C" fn suolluvik_advance_height(
    font: &[u8],
    vertical: u8,
    vvar: u32,
    synthesized: f32,
    glyph_id: u16,
    coords: &[i16],
    unvaried: u16,
    scale: f32,
    value: &mut f32,
) -> u8
    ensures { (result, value.new) ≡ numbered zero (advance_height_in font.now vertical vvar synthesized glyph_id coords.now unvaried scale) }
{
    suolluvik::glyph::suolluvik_advance_height(
        font,
        vertical,
        vvar,
        synthesized,
        glyph_id,
        coords,
        unvaried,
        scale,
        value,
    )
}

#[unsafe(no_mangle)]
pub extern "C" fn suolluvik_tsb(
    font: &[u8],
    vertical: u8,
    vvar: u32,
    glyph_id: u16,
    coords: &[i16],
    unvaried: i16,
    scale: f32,
    value: &mut f32,
) -> u8
    ensures { (result, value.new) ≡ numbered zero (top_bearing_in font.now vertical vvar glyph_id coords.now unvaried scale) }
{
    suolluvik::glyph::suolluvik_tsb(
        font, vertical, vvar, glyph_id, coords, unvaried, scale, value,
    )
}

#[unsafe(no_mangle)]
pub extern "C" fn suolluvik_vertical_origin(
    font: &[u8],
    units_per_em: u16,
    vertical: u8,
    vvar: u32,
    synthesized: f32,
    glyph_id: u16,
    coords: &[i16],
    unvaried: i16,
    has_y: bool,
    y: i16,
    scale: f32,
    value: &mut f32,
) -> u8
    ensures { (result, value.new) ≡ numbered zero (vertical_origin_in font.now units_per_em vertical vvar synthesized glyph_id coords.now unvaried (if_known has_y y) scale) }
{
    suolluvik::glyph::suolluvik_vertical_origin(
        font,
        units_per_em,
        vertical,
        vvar,
        synthesized,
        glyph_id,
        coords,
        unvaried,
        has_y,
        y,
        scale,
        value,
    )
}

#[unsafe(no_mangle)]
pub extern "C" fn suolluvik_materialize_glyph_metrics<'a>(
    font: &'a [u8],
    vertical: u8,
    mvar: u32,
    coords: &'a [i16],
    advance: f32,
    origin: f32,
    advance_at: &mut f32,
    origin_at: &mut f32,
) -> u8
    ensures advance { (result, advance_at.new) ≡ numbered zero (materialized_advance font.now vertical mvar coords.now advance origin) }
    ensures origin { (result, origin_at.new) ≡ numbered zero (materialized_origin font.now vertical mvar coords.now advance origin) }
{
    suolluvik::glyph::suolluvik_materialize_glyph_metrics(
        font, vertical, mvar, coords, advance, origin, advance_at, origin_at,
    )
}

#[unsafe(no_mangle)]
pub extern "C" fn suolluvik_scale_glyph_metrics(units_per_em: u16, ppem: f32) -> f32
    ensures { result ≡ scale_for ppem units_per_em }
{
    suolluvik::glyph::suolluvik_scale_glyph_metrics(units_per_em, ppem)
}

#[unsafe(no_mangle)]
pub extern "C" fn suolluvik_synthesize(
    ascent: f32,
    descent: f32,
    advance: &mut f32,
    origin: &mut f32,
)
    ensures advance { advance.new ≡ advance_or zero (synthesized_from 0 ascent descent) }
    ensures origin { origin.new ≡ origin_or zero (synthesized_from 0 ascent descent) }
{
    suolluvik::glyph::suolluvik_synthesize(ascent, descent, advance, origin);
}
