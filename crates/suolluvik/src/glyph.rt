// A glyph's advances, bearings and vertical origin, from its unvaried numbers: varied by HVAR or VVAR, and scaled. The vertical case is 0 for vmtx with glyf, 1 for vmtx with VORG, 2 for synthesized
// metrics; another number is refused. Where a delta is refused 0.0 is added, as in swash.
ghost use Rattle.std.specs.Prelude.{◌≡◌};
ghost use Rattle.metrics.specs.Scale.{zero, scale_for};
ghost use Rattle.metrics.specs.Vertical.{synthesized_from};
ghost use Rattle.metrics.specs.Structs.{vertical_of, glyphs_of, ordinate};
ghost use Rattle.suolluvik.specs.Glyph.{vertical_case, glyphs, no_vertical, advance_or, origin_or, if_known, advance_width_in, left_bearing_in, advance_height_in, top_bearing_in, vertical_origin_in, materialized_advance, materialized_origin};
ghost use Rattle.suolluvik.specs.Numbered.{numbered};
ghost use Rattle.suolluvik.specs.GlyphAnswers.{vertical_outcome};

use crate::answers::answered;
use metrics::glyph::{GlyphMetrics, materialize_glyph_metrics};
use metrics::vertical::Vertical;
use readers::Refusal;

// A vertical case by its number, as C hands it. offset is VVAR's; of the synthesized case MVAR's.
fn vertical_case(which: u8, offset: u32, advance: f32, origin: f32) -> Result<Vertical, Refusal>
    ensures { vertical_outcome result ≡ vertical_case which offset advance origin }
{
    match which {
        0 => Ok(Vertical::VmtxGlyf {
            loca_fmt: 0,
            long_count: 0,
            vmtx: 0,
            vvar: offset,
            glyf: 0,
            loca: 0,
        }),
        1 => Ok(Vertical::VmtxVorg {
            long_count: 0,
            vmtx: 0,
            vvar: offset,
            vorg: 0,
        }),
        2 => Ok(Vertical::Synthesized {
            mvar: offset,
            advance,
            origin,
        }),
        _ => Err(Refusal::Index),
    }
}

// The fields that a glyph's measures hang on.
fn glyphs(units_per_em: u16, hvar: u32, vertical: Vertical, scale: f32) -> GlyphMetrics
    ensures { glyphs_of result ≡ glyphs units_per_em hvar (vertical_of vertical) scale }
{
    GlyphMetrics {
        units_per_em,
        glyph_count: 0,
        hmtx: 0,
        hvar,
        hmtx_count: 0,
        has_vvar: false,
        vertical,
        scale,
    }
}

// Those that widths and scaling hang on.
fn level(units_per_em: u16, hvar: u32, scale: f32) -> GlyphMetrics
    ensures { glyphs_of result ≡ glyphs units_per_em hvar no_vertical scale }
{
    let none = Vertical::Synthesized {
        mvar: 0,
        advance: 0.0,
        origin: 0.0,
    };
    glyphs(units_per_em, hvar, none, scale)
}

// The advance width of a glyph by the HVAR at an offset, 0 for none.
#[unsafe(no_mangle)]
pub extern "C" fn suolluvik_advance_width(
    font: &[u8],
    hvar: u32,
    glyph_id: u16,
    coords: &[i16],
    unvaried: u16,
    scale: f32,
) -> f32
    ensures { result ≡ advance_width_in font.now hvar glyph_id coords.now unvaried scale }
{
    level(0, hvar, scale).advance_width(font, glyph_id, coords, unvaried)
}

// Its left side bearing.
#[unsafe(no_mangle)]
pub extern "C" fn suolluvik_lsb(
    font: &[u8],
    hvar: u32,
    glyph_id: u16,
    coords: &[i16],
    unvaried: i16,
    scale: f32,
) -> f32
    ensures { result ≡ left_bearing_in font.now hvar glyph_id coords.now unvaried scale }
{
    level(0, hvar, scale).lsb(font, glyph_id, coords, unvaried)
}

// Its advance height by the VVAR at an offset, 0 for none; or the synthesized one, scaled.
#[unsafe(no_mangle)]
pub extern "C" fn suolluvik_advance_height(
    font: &[u8],
    vertical: u8,
    vvar: u32,
    synthesized: f32,
    glyph_id: u16,
    coords: &[i16],
    unvaried: u16,
    scale: f32,
    value: &mut f32,
) -> u8
    ensures { (result, value.new) ≡ numbered zero (advance_height_in font.now vertical vvar synthesized glyph_id coords.now unvaried scale) }
{
    let height = vertical_case(vertical, vvar, synthesized, 0.0).map(|v| glyphs(
        0, 0, v, scale,
    ).advance_height(font, glyph_id, coords, unvaried));
    answered(height, 0.0, value)
}

// Its top side bearing by the VVAR at an offset, 0 for none; or a synthesized 0.0, scaled.
#[unsafe(no_mangle)]
pub extern "C" fn suolluvik_tsb(
    font: &[u8],
    vertical: u8,
    vvar: u32,
    glyph_id: u16,
    coords: &[i16],
    unvaried: i16,
    scale: f32,
    value: &mut f32,
) -> u8
    ensures { (result, value.new) ≡ numbered zero (top_bearing_in font.now vertical vvar glyph_id coords.now unvaried scale) }
{
    let bearing = vertical_case(vertical, vvar, 0.0, 0.0).map(|v| glyphs(0, 0, v, scale).tsb(
        font, glyph_id, coords, unvaried,
    ));
    answered(bearing, 0.0, value)
}

fn known(has_y: bool, y: i16) -> Option<i16>
    ensures { ordinate result ≡ if_known has_y y }
{
    has_y.then_some(y)
}

// Its vertical origin, from its unvaried top side bearing and a y that may be missing: with glyf its yMax, with VORG its origin there; or the synthesized one, scaled.
#[unsafe(no_mangle)]
pub extern "C" fn suolluvik_vertical_origin(
    font: &[u8],
    units_per_em: u16,
    vertical: u8,
    vvar: u32,
    synthesized: f32,
    glyph_id: u16,
    coords: &[i16],
    unvaried: i16,
    has_y: bool,
    y: i16,
    scale: f32,
    value: &mut f32,
) -> u8
    ensures { (result, value.new) ≡ numbered zero (vertical_origin_in font.now units_per_em vertical vvar synthesized glyph_id coords.now unvaried (if_known has_y y) scale) }
{
    let y = known(has_y, y);
    let origin = vertical_case(vertical, vvar, 0.0, synthesized).map(|v| {
        glyphs(units_per_em, 0, v, scale).vertical_origin(font, glyph_id, coords, unvaried, y, y)
    });
    answered(origin, 0.0, value)
}

// One each for advance and origin, as the two clauses below have them.
fn advance_or(given: f32, vertical: Vertical) -> f32
    ensures { result ≡ advance_or given (vertical_of vertical) }
{
    match vertical {
        Vertical::VmtxGlyf { .. } | Vertical::VmtxVorg { .. } => given,
        Vertical::Synthesized { advance, .. } => advance,
    }
}

fn origin_or(given: f32, vertical: Vertical) -> f32
    ensures { result ≡ origin_or given (vertical_of vertical) }
{
    match vertical {
        Vertical::VmtxGlyf { .. } | Vertical::VmtxVorg { .. } => given,
        Vertical::Synthesized { origin, .. } => origin,
    }
}

// Glyph metrics at some coordinates: the synthesized advance and origin, shifted by the MVAR at an offset, 0 for none; in the other cases as they are.
#[unsafe(no_mangle)]
pub extern "C" fn suolluvik_materialize_glyph_metrics<'a>(
    font: &'a [u8],
    vertical: u8,
    mvar: u32,
    coords: &'a [i16],
    advance: f32,
    origin: f32,
    advance_at: &mut f32,
    origin_at: &mut f32,
) -> u8
    ensures advance { (result, advance_at.new) ≡ numbered zero (materialized_advance font.now vertical mvar coords.now advance origin) }
    ensures origin { (result, origin_at.new) ≡ numbered zero (materialized_origin font.now vertical mvar coords.now advance origin) }
{
    let shifted = vertical_case(vertical, mvar, advance, origin).map(|v| materialize_glyph_metrics(
        glyphs(0, 0, v, 0.0),
        font,
        coords,
    ).vertical);
    answered(shifted.map(|v| advance_or(advance, v)), 0.0, advance_at);
    answered(shifted.map(|v| origin_or(origin, v)), 0.0, origin_at)
}

// The scale for pixels per em, to be handed to the measures of a glyph.
#[unsafe(no_mangle)]
pub extern "C" fn suolluvik_scale_glyph_metrics(units_per_em: u16, ppem: f32) -> f32
    ensures { result ≡ scale_for ppem units_per_em }
{
    level(units_per_em, 0, 0.0).scale(ppem).scale
}

// What swash synthesizes from a font's unvaried ascent and descent.
#[unsafe(no_mangle)]
pub extern "C" fn suolluvik_synthesize(
    ascent: f32,
    descent: f32,
    advance: &mut f32,
    origin: &mut f32,
)
    ensures advance { advance.new ≡ advance_or zero (synthesized_from 0 ascent descent) }
    ensures origin { origin.new ≡ origin_or zero (synthesized_from 0 ascent descent) }
{
    let made = Vertical::synthesize(0, ascent, descent);
    *advance = advance_or(0.0, made);
    *origin = origin_or(0.0, made);
}
