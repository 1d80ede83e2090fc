// Cases of a font's measures.
use crate::parse::{Place, Rooms, flag, float, index, list};
use crate::print::Output;
use metrics::measures::{Metrics, materialize_metrics};

pub(crate) fn answer(words: &[&[u8]], rooms: &mut Rooms, out: &mut Output) -> Option<()> {
    match words {
        [b"linear_scale", scale, measures] => {
            put(read(measures, 0, false)?.linear_scale(float(scale)?), out)
        }
        [b"scale", units_per_em, ppem, measures] => {
            put(
                read(measures, index(units_per_em)?, false)?.scale(float(ppem)?),
                out,
            )
        }
        [
            b"materialize_metrics",
            font,
            mvar,
            coords,
            has_vertical_metrics,
            measures,
        ] => {
            let unvaried = read(measures, 0, flag(has_vertical_metrics)?)?;
            let at = Place::read(font, mvar, coords, rooms)?;
            put(
                materialize_metrics(unvaried, at.font, at.offset, &at.coords),
                out,
            )
        }
        _ => return None,
    }
    Some(())
}

fn put(m: Metrics, out: &mut Output) {
    let measures = [
        m.ascent,
        m.descent,
        m.leading,
        m.vertical_ascent,
        m.vertical_descent,
        m.vertical_leading,
        m.cap_height,
        m.x_height,
        m.average_width,
        m.max_width,
        m.underline_offset,
        m.strikeout_offset,
        m.stroke_size,
    ];
    out.values(&measures)
}

// The thirteen measures of a list.
fn read(text: &[u8], units_per_em: u16, has_vertical_metrics: bool) -> Option<Metrics> {
    let list = list(text, float)?;
    let [
        ascent,
        descent,
        leading,
        vertical_ascent,
        vertical_descent,
        vertical_leading,
        cap_height,
        x_height,
        average_width,
        max_width,
        underline_offset,
        strikeout_offset,
        stroke_size,
    ] = list.as_slice()
    else {
        return None;
    };
    Some(Metrics {
        units_per_em,
        glyph_count: 0,
        is_monospace: false,
        has_vertical_metrics,
        ascent: *ascent,
        descent: *descent,
        leading: *leading,
        vertical_ascent: *vertical_ascent,
        vertical_descent: *vertical_descent,
        vertical_leading: *vertical_leading,
        cap_height: *cap_height,
        x_height: *x_height,
        average_width: *average_width,
        max_width: *max_width,
        underline_offset: *underline_offset,
        strikeout_offset: *strikeout_offset,
        stroke_size: *stroke_size,
    })
}
