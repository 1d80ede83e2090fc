// The measures of a glyph by what is the same for all glyphs of a font, each from one call: the offsets and counts that `GlyphMetrics` keeps are read here. For yMax there is no reader: with glyf the caller gives it.
ghost use Rattle.std.specs.Prelude.{◌≡◌};
ghost use Rattle.readers.specs.Reading.{run};
ghost use Rattle.readers.specs.Answers.{outcome, outcome_as};
ghost use Rattle.opentype.specs.Metric.{advance, bearing};
ghost use Rattle.store.specs.MetricAnswers.{measure_of};
ghost use Rattle.metrics.specs.Structs.{vertical_of, glyphs_of, ordinate};
ghost use Rattle.widths.specs.Glyph.{read_level, unvaried_upright, read_upright, bearing_for, origin_for, read_vertical_origin};

use crate::adjusted::{adjusted_advance, adjusted_sb, unvaried};
use crate::{vorg, xmtx};
use metrics::glyph::GlyphMetrics;
use metrics::vertical::Vertical;
use readers::Refusal;
use store::metric::Measure;

// The advance width of a glyph.
pub fn advance_width(
    m: GlyphMetrics,
    font: &[u8],
    glyph_id: u16,
    coords: &[i16],
) -> Result<f32, Refusal>
    ensures { outcome result ≡ read_level font.now advance glyph_id coords.now (glyphs_of m) }
{
    adjusted_advance(
        font,
        m.hmtx,
        m.hmtx_count,
        m.hvar,
        glyph_id,
        coords,
        m.scale,
    )
}

// Its left side bearing.
pub fn lsb(m: GlyphMetrics, font: &[u8], glyph_id: u16, coords: &[i16]) -> Result<f32, Refusal>
    ensures { outcome result ≡ read_level font.now bearing glyph_id coords.now (glyphs_of m) }
{
    adjusted_sb(
        font,
        m.hmtx,
        m.hmtx_count,
        m.hvar,
        glyph_id,
        coords,
        m.scale,
    )
}

// Its advance height, by vmtx or synthesized.
pub fn advance_height(
    m: GlyphMetrics,
    font: &[u8],
    glyph_id: u16,
    coords: &[i16],
) -> Result<f32, Refusal>
    ensures { outcome result ≡ read_upright font.now advance glyph_id coords.now (glyphs_of m) }
{
    upright(m, font, Measure::Advance, glyph_id, coords)
}

// Its top side bearing, by vmtx or synthesized.
pub fn tsb(m: GlyphMetrics, font: &[u8], glyph_id: u16, coords: &[i16]) -> Result<f32, Refusal>
    ensures { outcome result ≡ read_upright font.now bearing glyph_id coords.now (glyphs_of m) }
{
    upright(m, font, Measure::Bearing, glyph_id, coords)
}

fn upright(
    m: GlyphMetrics,
    font: &[u8],
    measure: Measure,
    glyph_id: u16,
    coords: &[i16],
) -> Result<f32, Refusal>
    ensures { outcome result ≡ read_upright font.now (measure_of measure) glyph_id coords.now (glyphs_of m) }
{
    let unvaried = unvaried_upright(m.vertical, font, measure, glyph_id)?;
    Ok(m.upright(font, measure, glyph_id, coords, unvaried))
}

// What vmtx has of a measure. Of what is synthesized nothing is read, and nothing is refused.
fn unvaried_upright(
    vertical: Vertical,
    font: &[u8],
    measure: Measure,
    glyph_id: u16,
) -> Result<f32, Refusal>
    ensures { outcome result ≡ run font.now (unvaried_upright (measure_of measure) glyph_id (vertical_of vertical)) }
{
    match vertical {
        Vertical::VmtxGlyf {
            long_count,
            vmtx,
            ..
        }
        | Vertical::VmtxVorg {
            long_count,
            vmtx,
            ..
        } => unvaried(font, measure, vmtx, long_count, glyph_id),
        Vertical::Synthesized { .. } => Ok(0.0),
    }
}

// Its vertical origin: with glyf from its yMax and its top side bearing, with VORG from there, or synthesized.
pub fn vertical_origin(
    m: GlyphMetrics,
    font: &[u8],
    glyph_id: u16,
    coords: &[i16],
    y_max: Option<i16>,
) -> Result<f32, Refusal>
    ensures { outcome result ≡ read_vertical_origin font.now glyph_id coords.now (ordinate y_max) (glyphs_of m) }
{
    let unvaried = bearing_for(m.vertical, font, glyph_id, y_max)?;
    let origin = origin_for(m.vertical, font, glyph_id)?;
    Ok(m.vertical_origin(font, glyph_id, coords, unvaried, y_max, origin))
}

// The unvaried top side bearing where the origin hangs on it: with glyf, added to a yMax.
fn bearing_for(
    vertical: Vertical,
    font: &[u8],
    glyph_id: u16,
    y_max: Option<i16>,
) -> Result<i16, Refusal>
    ensures { outcome result ≡ run font.now (bearing_for (ordinate y_max) glyph_id (vertical_of vertical)) }
{
    match vertical {
        Vertical::VmtxGlyf {
            long_count,
            vmtx,
            ..
        } => match y_max {
            Some(_) => xmtx::sb(font, vmtx, long_count, glyph_id),
            None => Ok(0),
        },
        Vertical::VmtxVorg { .. } | Vertical::Synthesized { .. } => Ok(0),
    }
}

// VORG's origin, where there is a VORG.
fn origin_for(vertical: Vertical, font: &[u8], glyph_id: u16) -> Result<Option<i16>, Refusal>
    ensures { outcome_as ordinate result ≡ run font.now (origin_for glyph_id (vertical_of vertical)) }
{
    match vertical {
        Vertical::VmtxVorg { vorg, .. } => Ok(Some(vorg::origin(font, vorg, glyph_id)?)),
        Vertical::VmtxGlyf { .. } | Vertical::Synthesized { .. } => Ok(None),
    }
}
