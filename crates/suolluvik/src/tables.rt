// A glyph's unvaried advance and side bearing, by hmtx or vmtx, and its vertical origin, by VORG; and its adjusted advance and side bearing from one call: read, varied by HVAR or VVAR, and scaled. Where a delta is
// refused 0.0 is added.
ghost use Rattle.std.specs.Prelude.{◌≡◌, pos};
ghost use Rattle.readers.specs.Reading.{run};
ghost use Rattle.opentype.specs.Metric.{advance as advance_of, bearing};
ghost use Rattle.opentype.specs.Xmtx.{advance_at, sb_at};
ghost use Rattle.opentype.specs.Vorg.{origin_at};
ghost use Rattle.metrics.specs.Scale.{zero};
ghost use Rattle.widths.specs.Adjusted.{adjusted_at};
ghost use Rattle.suolluvik.specs.Numbered.{numbered};

use crate::answers::answered;
use widths::adjusted::{adjusted_advance, adjusted_sb};
use widths::vorg::origin;
use widths::xmtx::{advance, sb};

// The unvaried advance of a glyph, by the hmtx or vmtx at an offset and the count of its long records, which is hhea's or vhea's.
#[unsafe(no_mangle)]
pub extern "C" fn suolluvik_xmtx_advance(
    font: &[u8],
    xmtx: u32,
    long_metric_count: u16,
    glyph_id: u16,
    value: &mut u16,
) -> u8
    ensures { (result, value.new) ≡ numbered 0 (run font.now (advance_at xmtx long_metric_count glyph_id)) }
{
    answered(advance(font, xmtx, long_metric_count, glyph_id), 0, value)
}

// Its unvaried left or top side bearing.
#[unsafe(no_mangle)]
pub extern "C" fn suolluvik_xmtx_sb(
    font: &[u8],
    xmtx: u32,
    long_metric_count: u16,
    glyph_id: u16,
    value: &mut i16,
) -> u8
    ensures { (result, value.new) ≡ numbered (pos 0) (run font.now (sb_at xmtx long_metric_count glyph_id)) }
{
    answered(sb(font, xmtx, long_metric_count, glyph_id), 0, value)
}

// The y coordinate of its vertical origin, by the VORG at an offset; not varied.
#[unsafe(no_mangle)]
pub extern "C" fn suolluvik_vorg_origin(
    font: &[u8],
    vorg: u32,
    glyph_id: u16,
    value: &mut i16,
) -> u8
    ensures { (result, value.new) ≡ numbered (pos 0) (run font.now (origin_at vorg glyph_id)) }
{
    answered(origin(font, vorg, glyph_id), 0, value)
}

// Its advance width by hmtx and HVAR, or its advance height by vmtx and VVAR; with no HVAR or VVAR the second offset is 0.
#[unsafe(no_mangle)]
pub extern "C" fn suolluvik_adjusted_advance(
    font: &[u8],
    xmtx: u32,
    long_metric_count: u16,
    xvar: u32,
    glyph_id: u16,
    coords: &[i16],
    scale: f32,
    value: &mut f32,
) -> u8
    ensures { (result, value.new) ≡ numbered zero (adjusted_at font.now advance_of xmtx long_metric_count xvar glyph_id coords.now scale) }
{
    let answer = adjusted_advance(font, xmtx, long_metric_count, xvar, glyph_id, coords, scale);
    answered(answer, 0.0, value)
}

// Its left or top side bearing, in the same way.
#[unsafe(no_mangle)]
pub extern "C" fn suolluvik_adjusted_sb(
    font: &[u8],
    xmtx: u32,
    long_metric_count: u16,
    xvar: u32,
    glyph_id: u16,
    coords: &[i16],
    scale: f32,
    value: &mut f32,
) -> u8
    ensures { (result, value.new) ≡ numbered zero (adjusted_at font.now bearing xmtx long_metric_count xvar glyph_id coords.now scale) }
{
    let answer = adjusted_sb(font, xmtx, long_metric_count, xvar, glyph_id, coords, scale);
    answered(answer, 0.0, value)
}
