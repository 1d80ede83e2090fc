// A glyph's advances, bearings and vertical origin.
ghost use Rattle.std.specs.Prelude.{◌≡◌};
ghost use Rattle.store.specs.MetricAnswers.{measure_of};
ghost use Rattle.metrics.specs.Scale.{adjusted};
ghost use Rattle.metrics.specs.Vertical.{has_vertical_metrics};
ghost use Rattle.metrics.specs.Glyph.{has_variations, with_scale, scaled_glyphs, materialized_glyphs, varied, advance_width, left_bearing, synthesized_measure, upright, advance_height, top_bearing, glyf_origin, vorg_origin, vertical_origin};
ghost use Rattle.metrics.specs.Structs.{glyphs_of, ordinate};

use crate::measures::scale_for;
use crate::vertical::Vertical;
use store::metric::{Measure, float_of, metric_delta};

// What is the same for all glyphs of a font. Each call is lent the font and the coordinates and given the glyph's unvaried numbers; the offsets and counts of hmtx and
// of the vertical tables are kept for whoever reads those.
#[derive(Clone, Copy)]
pub struct GlyphMetrics {
    pub units_per_em: u16,
    pub glyph_count: u16,
    pub hmtx: u32,
    pub hvar: u32,
    pub hmtx_count: u16,
    pub has_vvar: bool,
    pub vertical: Vertical,
    pub scale: f32,
}

impl GlyphMetrics {
    // Whether the font itself has vertical metrics for its glyphs.
    pub fn has_vertical_metrics(self) -> bool
        ensures { result ≡ has_vertical_metrics (glyphs_of self).vertical }
    {
        self.vertical.has_vertical_metrics()
    }

    // Whether variations are supported.
    pub fn has_variations(self) -> bool
        ensures { result ≡ has_variations (glyphs_of self) }
    {
        self.hvar != 0 || self.has_vvar
    }

    // The same, scaled for pixels per em.
    pub fn scale(self, ppem: f32) -> GlyphMetrics
        ensures { glyphs_of result ≡ scaled_glyphs ppem (glyphs_of self) }
    {
        self.linear_scale(scale_for(ppem, self.units_per_em))
    }

    // The same with this scale, whatever it was.
    pub fn linear_scale(mut self, scale: f32) -> GlyphMetrics
        ensures { glyphs_of result ≡ with_scale scale (glyphs_of self) }
    {
        self.scale = scale;
        self
    }

    // The advance width of a glyph, from the unvaried one.
    pub fn advance_width(self, font: &[u8], glyph_id: u16, coords: &[i16], unvaried: u16) -> f32
        ensures { result ≡ advance_width font.now glyph_id coords.now unvaried (glyphs_of self) }
    {
        self.level(font, Measure::Advance, glyph_id, coords, unvaried.into())
    }

    // The left side bearing of a glyph, from the unvaried one.
    pub fn lsb(self, font: &[u8], glyph_id: u16, coords: &[i16], unvaried: i16) -> f32
        ensures { result ≡ left_bearing font.now glyph_id coords.now unvaried (glyphs_of self) }
    {
        self.level(font, Measure::Bearing, glyph_id, coords, unvaried.into())
    }

    // An advance width or a left side bearing.
    fn level(
        self,
        font: &[u8],
        measure: Measure,
        glyph_id: u16,
        coords: &[i16],
        unvaried: f32,
    ) -> f32
        ensures { result ≡ varied font.now (glyphs_of self).hvar (measure_of measure) glyph_id coords.now unvaried (glyphs_of self).scale }
    {
        varied(
            font, self.hvar, measure, glyph_id, coords, unvaried, self.scale,
        )
    }

    // The advance height of a glyph, from the unvaried one; or the synthesized one.
    pub fn advance_height(self, font: &[u8], glyph_id: u16, coords: &[i16], unvaried: u16) -> f32
        ensures { result ≡ advance_height font.now glyph_id coords.now unvaried (glyphs_of self) }
    {
        self.upright(font, Measure::Advance, glyph_id, coords, unvaried.into())
    }

    // The top side bearing of a glyph, from the unvaried one; or a synthesized 0.0, scaled too.
    pub fn tsb(self, font: &[u8], glyph_id: u16, coords: &[i16], unvaried: i16) -> f32
        ensures { result ≡ top_bearing font.now glyph_id coords.now unvaried (glyphs_of self) }
    {
        self.upright(font, Measure::Bearing, glyph_id, coords, unvaried.into())
    }

    // An advance height or a top side bearing, from the unvaried one as a float.
    pub fn upright(
        self,
        font: &[u8],
        measure: Measure,
        glyph_id: u16,
        coords: &[i16],
        unvaried: f32,
    ) -> f32
        ensures { result ≡ upright font.now (measure_of measure) glyph_id coords.now unvaried (glyphs_of self).scale (glyphs_of self).vertical }
    {
        match self.vertical {
            Vertical::VmtxGlyf { vvar, .. } | Vertical::VmtxVorg { vvar, .. } => {
                varied(font, vvar, measure, glyph_id, coords, unvaried, self.scale)
            }
            Vertical::Synthesized { advance, .. } => {
                synthesized_measure(measure, advance) * self.scale
            }
        }
    }

    // The vertical origin of a glyph: with glyf from its yMax and its unvaried top side bearing, with VORG from its origin there; or the synthesized one.
    pub fn vertical_origin(
        self,
        font: &[u8],
        glyph_id: u16,
        coords: &[i16],
        unvaried: i16,
        y_max: Option<i16>,
        origin: Option<i16>,
    ) -> f32
        ensures { result ≡ vertical_origin font.now glyph_id coords.now unvaried (ordinate y_max) (ordinate origin) (glyphs_of self) }
    {
        match self.vertical {
            Vertical::VmtxGlyf { .. } => {
                self.glyf_origin(font, glyph_id, coords, unvaried, y_max) * self.scale
            }
            Vertical::VmtxVorg { .. } => vorg_origin(self.units_per_em, origin) * self.scale,
            Vertical::Synthesized { origin, .. } => origin * self.scale,
        }
    }

    // The vertical origin with glyf, before scaling; but its bearing is scaled, as in swash. It is asked for only where there is a yMax.
    fn glyf_origin(
        self,
        font: &[u8],
        glyph_id: u16,
        coords: &[i16],
        unvaried: i16,
        y_max: Option<i16>,
    ) -> f32
        ensures { result ≡ glyf_origin (glyphs_of self).units_per_em (ordinate y_max) (top_bearing font.now glyph_id coords.now unvaried (glyphs_of self)) }
    {
        match y_max {
            Some(y) => f32::from(y) + self.tsb(font, glyph_id, coords, unvaried),
            None => f32::from(self.units_per_em),
        }
    }
}

// Glyph metrics at some coordinates, from the unvaried ones: a synthesized vertical case is shifted by MVAR, all else stays.
pub fn materialize_glyph_metrics<'a>(
    unvaried: GlyphMetrics,
    font: &'a [u8],
    coords: &'a [i16],
) -> GlyphMetrics
    ensures { glyphs_of result ≡ materialized_glyphs font.now coords.now (glyphs_of unvaried) }
{
    GlyphMetrics {
        vertical: unvaried.vertical.materialize(font, coords),
        ..unvaried
    }
}

fn adjusted(unvaried: f32, delta: f32, scale: f32) -> f32
    ensures { result ≡ adjusted unvaried delta scale }
{
    (unvaried + delta) * scale
}

// An advance or a side bearing by the HVAR or VVAR at an offset, from the unvaried one as a float.
pub fn varied(
    font: &[u8],
    xvar: u32,
    measure: Measure,
    glyph_id: u16,
    coords: &[i16],
    unvaried: f32,
    scale: f32,
) -> f32
    ensures { result ≡ varied font.now xvar (measure_of measure) glyph_id coords.now unvaried scale }
{
    let delta = float_of(metric_delta(font, xvar, measure, glyph_id, coords));
    adjusted(unvaried, delta, scale)
}

fn synthesized_measure(measure: Measure, height: f32) -> f32
    ensures { result ≡ synthesized_measure (measure_of measure) height }
{
    match measure {
        Measure::Advance => height,
        Measure::Bearing => 0.0,
    }
}

fn vorg_origin(units_per_em: u16, origin: Option<i16>) -> f32
    ensures { result ≡ vorg_origin units_per_em (ordinate origin) }
{
    f32::from(origin.unwrap_or(units_per_em.cast_signed()))
}
