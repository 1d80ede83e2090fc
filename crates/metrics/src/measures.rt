// The measures of a font.
ghost use Rattle.std.specs.Prelude.{◌≡◌, true};
ghost use Rattle.store.specs.MvarDeltasAnswers.{deltas_of, wants_others, wants_vertical};
ghost use Rattle.metrics.specs.Scale.{scale_for};
ghost use Rattle.metrics.specs.Measures.{shifted, materialized_metrics, linear_scaled, scaled_metrics};
ghost use Rattle.metrics.specs.Structs.{metrics_of, tagged};

use crate::deltas::opened_deltas;
use store::mvar_deltas::{MeasureDeltas, Wanted};

// Global font metrics.
#[derive(Clone, Copy)]
pub struct Metrics {
    // Number of font design units per em unit.
    pub units_per_em: u16,
    // Number of glyphs in the font.
    pub glyph_count: u16,
    // True if the font is monospace.
    pub is_monospace: bool,
    // True if the font provides canonical vertical metrics.
    pub has_vertical_metrics: bool,
    // Distance from the baseline to the top of the alignment box.
    pub ascent: f32,
    // Distance from the baseline to the bottom of the alignment box.
    pub descent: f32,
    // Recommended additional spacing between lines.
    pub leading: f32,
    // Distance from the vertical center baseline to the right edge of the design space.
    pub vertical_ascent: f32,
    // Distance from the vertical center baseline to the left edge of the design space.
    pub vertical_descent: f32,
    // Recommended additional spacing between columns.
    pub vertical_leading: f32,
    // Distance from the baseline to the top of a typical English capital.
    pub cap_height: f32,
    // Distance from the baseline to the top of the lowercase "x" or similar character.
    pub x_height: f32,
    // Average width of all non-zero characters in the font.
    pub average_width: f32,
    // Maximum advance width of all characters in the font.
    pub max_width: f32,
    // Recommended distance from the baseline to the top of an underline stroke.
    pub underline_offset: f32,
    // Recommended distance from the baseline to the top of a strikeout stroke.
    pub strikeout_offset: f32,
    // Recommended thickness of an underline or strikeout stroke.
    pub stroke_size: f32,
}

impl Metrics {
    // The measures scaled for pixels per em.
    pub fn scale(self, ppem: f32) -> Metrics
        ensures { metrics_of result ≡ scaled_metrics ppem (metrics_of self) }
    {
        self.linear_scale(scale_for(ppem, self.units_per_em))
    }

    // The measures scaled by a factor. Field by field, here and below: swash names each measure.
    pub fn linear_scale(mut self, s: f32) -> Metrics
        ensures { metrics_of result ≡ linear_scaled s (metrics_of self) }
    {
        self.ascent *= s;
        self.descent *= s;
        self.leading *= s;
        self.vertical_ascent *= s;
        self.vertical_descent *= s;
        self.vertical_leading *= s;
        self.cap_height *= s;
        self.x_height *= s;
        self.average_width *= s;
        self.max_width *= s;
        self.underline_offset *= s;
        self.strikeout_offset *= s;
        self.stroke_size *= s;
        self
    }

    // Which deltas shift the measures.
    fn wanted(self) -> Wanted
        ensures { (wants_others result ≡ true) × (wants_vertical result ≡ self.has_vertical_metrics) }
    {
        if self.has_vertical_metrics {
            Wanted::All
        } else {
            Wanted::AllButVertical
        }
    }

    // The measures with their deltas, the vertical ones only of a font that has them.
    fn shifted(mut self, d: MeasureDeltas) -> Metrics
        ensures { metrics_of result ≡ shifted (tagged (deltas_of d)) (metrics_of self) }
    {
        self.ascent += d.hasc;
        self.descent += d.hdsc;
        self.leading += d.hlgp;
        self.cap_height += d.cpht;
        self.x_height += d.xhgt;
        self.underline_offset += d.undo;
        self.strikeout_offset += d.stro;
        self.stroke_size += d.unds;
        if self.has_vertical_metrics {
            self.vertical_ascent += d.vasc;
            self.vertical_descent += d.vdsc;
            self.vertical_leading += d.vlgp;
        }
        self
    }
}

// The factor for pixels per em.
pub(crate) fn scale_for(ppem: f32, units_per_em: u16) -> f32
    ensures { result ≡ scale_for ppem units_per_em }
{
    if units_per_em == 0 {
        return 1.0;
    }
    ppem / f32::from(units_per_em)
}

// The measures at some coordinates, from the unvaried ones, in font units, and the offset of the font's MVAR, 0 for none.
pub fn materialize_metrics<'a>(
    unvaried: Metrics,
    font: &'a [u8],
    mvar: u32,
    coords: &'a [i16],
) -> Metrics
    ensures { metrics_of result ≡ materialized_metrics font.now mvar coords.now (metrics_of unvaried) }
{
    if mvar == 0 || coords.is_empty() {
        return unvaried;
    }
    let Ok(d) = opened_deltas(font, mvar, coords, unvaried.wanted()) else {
        return unvaried;
    };
    unvaried.shifted(d)
}
