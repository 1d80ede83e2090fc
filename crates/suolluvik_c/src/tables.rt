// The exports of `suolluvik::tables`, for C: each calls it and has its contract.
ghost use Rattle.std.specs.Prelude.{◌≡◌, pos};
ghost use Rattle.readers.specs.Reading.{run};
ghost use Rattle.opentype.specs.Metric.{advance as advance_of, bearing};
ghost use Rattle.opentype.specs.Xmtx.{advance_at, sb_at};
ghost use Rattle.opentype.specs.Vorg.{origin_at};
ghost use Rattle.metrics.specs.Scale.{zero};
ghost use Rattle.widths.specs.Adjusted.{adjusted_at};
ghost use Rattle.suolluvik.specs.Numbered.{numbered};

#[unsafe(no_mangle)]
pub extern "C" fn suolluvik_xmtx_advance(
    font: &[u8],
    xmtx: u32,
    long_metric_count: u16,
    glyph_id: u16,
    value: &mut u16,
) -> u8
    ensures { (result, value.new) ≡ numbered 0 (run font.now (advance_at xmtx long_metric_count glyph_id)) }
{
    suolluvik::tables::suolluvik_xmtx_advance(font, xmtx, long_metric_count, glyph_id, value)
}

#[unsafe(no_mangle)]
pub extern "C" fn suolluvik_xmtx_sb(
    font: &[u8],
    xmtx: u32,
    long_metric_count: u16,
    glyph_id: u16,
    value: &mut i16,
) -> u8
    ensures { (result, value.new) ≡ numbered (pos 0) (run font.now (sb_at xmtx long_metric_count glyph_id)) }
{
    suolluvik::tables::suolluvik_xmtx_sb(font, xmtx, long_metric_count, glyph_id, value)
}

#[unsafe(no_mangle)]
pub extern "C" fn suolluvik_vorg_origin(
    font: &[u8],
    vorg: u32,
    glyph_id: u16,
    value: &mut i16,
) -> u8
    ensures { (result, value.new) ≡ numbered (pos 0) (run font.now (origin_at vorg glyph_id)) }
{
    suolluvik::tables::suolluvik_vorg_origin(font, vorg, glyph_id, value)
}

#[unsafe(no_mangle)]
pub extern "C" fn suolluvik_adjusted_advance(
    font: &[u8],
    xmtx: u32,
    long_metric_count: u16,
    xvar: u32,
    glyph_id: u16,
    coords: &[i16],
    scale: f32,
    value: &mut f32,
) -> u8
    ensures { (result, value.new) ≡ numbered zero (adjusted_at font.now advance_of xmtx long_metric_count xvar glyph_id coords.now scale) }
{
    suolluvik::tables::suolluvik_adjusted_advance(
        font,
        xmtx,
        long_metric_count,
        xvar,
        glyph_id,
        coords,
        scale,
        value,
    )
}

#[unsafe(no_mangle)]
pub extern "C" fn suolluvik_adjusted_sb(
    font: &[u8],
    xmtx: u32,
    long_metric_count: u16,
    xvar: u32,
    glyph_id: u16,
    coords: &[i16],
    scale: f32,
    value: &mut f32,
) -> u8
    ensures { (result, value.new) ≡ numbered zero (adjusted_at font.now bearing xmtx long_metric_count xvar glyph_id coords.now scale) }
{
    suolluvik::tables::suolluvik_adjusted_sb(
        font,
        xmtx,
        long_metric_count,
        xvar,
        glyph_id,
        coords,
        scale,
        value,
    )
}
