// A glyph's advance or side bearing from one call: read from hmtx or vmtx, varied by HVAR or VVAR, scaled.
ghost use Rattle.std.specs.Prelude.{◌≡◌};
ghost use Rattle.readers.specs.Reading.{run};
ghost use Rattle.readers.specs.Answers.{outcome};
ghost use Rattle.opentype.specs.Metric.{advance, bearing};
ghost use Rattle.store.specs.MetricAnswers.{measure_of};
ghost use Rattle.widths.specs.Adjusted.{unvaried_at, adjusted_at};

use crate::xmtx;
use metrics::glyph::varied;
use readers::Refusal;
use store::metric::Measure;

// The unvaried advance or side bearing of a glyph, as a float.
pub(crate) fn unvaried(
    font: &[u8],
    measure: Measure,
    xmtx: u32,
    long_metric_count: u16,
    glyph_id: u16,
) -> Result<f32, Refusal>
    ensures { outcome result ≡ run font.now (unvaried_at (measure_of measure) xmtx long_metric_count glyph_id) }
{
    match measure {
        Measure::Advance => Ok(xmtx::advance(font, xmtx, long_metric_count, glyph_id)?.into()),
        Measure::Bearing => Ok(xmtx::sb(font, xmtx, long_metric_count, glyph_id)?.into()),
    }
}

// The advance width or height by the hmtx or vmtx and the HVAR or VVAR at two offsets. Where the second is 0, or the delta is refused, 0.0 is added.
// Advance and bearing have a body each: one function over the measure is not inlined, and a width took 49 instructions more by it (DECISIONS 110).
pub fn adjusted_advance(
    font: &[u8],
    xmtx: u32,
    long_metric_count: u16,
    xvar: u32,
    glyph_id: u16,
    coords: &[i16],
    scale: f32,
) -> Result<f32, Refusal>
    ensures { outcome result ≡ adjusted_at font.now advance xmtx long_metric_count xvar glyph_id coords.now scale }
{
    let unvaried = f32::from(xmtx::advance(font, xmtx, long_metric_count, glyph_id)?);
    Ok(varied(
        font,
        xvar,
        Measure::Advance,
        glyph_id,
        coords,
        unvaried,
        scale,
    ))
}

// The left or top side bearing, in the same way.
pub fn adjusted_sb(
    font: &[u8],
    xmtx: u32,
    long_metric_count: u16,
    xvar: u32,
    glyph_id: u16,
    coords: &[i16],
    scale: f32,
) -> Result<f32, Refusal>
    ensures { outcome result ≡ adjusted_at font.now bearing xmtx long_metric_count xvar glyph_id coords.now scale }
{
    let unvaried = f32::from(xmtx::sb(font, xmtx, long_metric_count, glyph_id)?);
    Ok(varied(
        font,
        xvar,
        Measure::Bearing,
        glyph_id,
        coords,
        unvaried,
        scale,
    ))
}
