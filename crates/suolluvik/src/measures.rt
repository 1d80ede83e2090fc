// A font's thirteen measures, a lent record of floats: ascent, descent, leading, vertical ascent, descent and leading, cap height, x height, average and maximum width, underline
// and strikeout offset, stroke size. They are changed in place; a record of another size is refused.
ghost use Rattle.std.specs.Prelude.{◌≡◌, false, ◌≤◌, length};
ghost use Rattle.readers.specs.Outcome.{number};
ghost use Rattle.metrics.specs.Measures.{Metrics as Measured, materialized_metrics, linear_scaled, scaled_metrics};
ghost use Rattle.metrics.specs.Structs.{metrics_of};
ghost use Rattle.suolluvik.specs.Measures.{record_in, size_in, put, changed};
ghost use Rattle.suolluvik.specs.MeasuresAnswers.{Makes};

use metrics::measures::{Metrics, materialize_metrics};
use readers::Refusal;

const COUNT: usize = 13;

fn record_in(units_per_em: u16, has_vertical_metrics: bool, measures: &[f32]) -> Metrics
    requires { 13 ≤ length measures.now }
    ensures { metrics_of result ≡ record_in units_per_em has_vertical_metrics measures.now }
{
    Metrics {
        units_per_em,
        glyph_count: 0,
        is_monospace: false,
        has_vertical_metrics,
        ascent: measures[0],
        descent: measures[1],
        leading: measures[2],
        vertical_ascent: measures[3],
        vertical_descent: measures[4],
        vertical_leading: measures[5],
        cap_height: measures[6],
        x_height: measures[7],
        average_width: measures[8],
        max_width: measures[9],
        underline_offset: measures[10],
        strikeout_offset: measures[11],
        stroke_size: measures[12],
    }
}

fn put(m: Metrics, measures: &mut [f32])
    requires { 13 ≤ length measures.old }
    ensures { measures.new ≡ put (metrics_of m) 13 measures.old }
{
    measures[0] = m.ascent;
    measures[1] = m.descent;
    measures[2] = m.leading;
    measures[3] = m.vertical_ascent;
    measures[4] = m.vertical_descent;
    measures[5] = m.vertical_leading;
    measures[6] = m.cap_height;
    measures[7] = m.x_height;
    measures[8] = m.average_width;
    measures[9] = m.max_width;
    measures[10] = m.underline_offset;
    measures[11] = m.strikeout_offset;
    measures[12] = m.stroke_size;
}

// A record with its measures changed; the number is the refusal's of one of another size.
fn changed<F: FnOnce(Metrics) -> Metrics>(
    change: F,
    units_per_em: u16,
    has_vertical_metrics: bool,
    measures: &mut [f32],
) -> u8
    requires { F.IsAlwaysCallable change }
    ensures number { result ≡ number (size_in measures.old) }
    ensures list { (rule : Measured → Measured) → Makes (F.post change) rule → measures.new ≡ changed rule units_per_em has_vertical_metrics measures.old }
{
    if measures.len() != COUNT {
        return Refusal::Room.into();
    }
    put(
        change(record_in(units_per_em, has_vertical_metrics, measures)),
        measures,
    );
    0
}

// The measures at some coordinates, from the unvaried ones. mvar is an offset in the font, 0 for none.
#[unsafe(no_mangle)]
pub extern "C" fn suolluvik_materialize_metrics<'a>(
    font: &'a [u8],
    mvar: u32,
    coords: &'a [i16],
    has_vertical_metrics: bool,
    measures: &mut [f32],
) -> u8
    ensures number { result ≡ number (size_in measures.old) }
    ensures list { measures.new ≡ changed (materialized_metrics font.now mvar coords.now) 0 has_vertical_metrics measures.old }
{
    changed(
        |unvaried| materialize_metrics(unvaried, font, mvar, coords),
        0,
        has_vertical_metrics,
        measures,
    )
}

// The measures scaled for pixels per em.
#[unsafe(no_mangle)]
pub extern "C" fn suolluvik_scale_metrics(units_per_em: u16, ppem: f32, measures: &mut [f32]) -> u8
    ensures number { result ≡ number (size_in measures.old) }
    ensures list { measures.new ≡ changed (scaled_metrics ppem) units_per_em false measures.old }
{
    changed(|m| m.scale(ppem), units_per_em, false, measures)
}

// The measures scaled by a factor.
#[unsafe(no_mangle)]
pub extern "C" fn suolluvik_linear_scale_metrics(scale: f32, measures: &mut [f32]) -> u8
    ensures number { result ≡ number (size_in measures.old) }
    ensures list { measures.new ≡ changed (linear_scaled scale) 0 false measures.old }
{
    changed(|m| m.linear_scale(scale), 0, false, measures)
}
