// What a line of type calls: filling, once, and the float of an advance, at each glyph (W-204). Their exports, in `suolluvik_line_c`, are compiled by themselves, beside the rest of the library: so that what they call is drawn into them, but
// for a row's loop, and what filling shares with a delta at coordinates stays drawn into that.
#![tactic(auto)]

ghost use Rattle.std.specs.Prelude.{◌≡◌, length};
ghost use Rattle.opentype.specs.Metric.{advance};
ghost use Rattle.opentype.specs.Lines.{fill_count, filled, metric_delta_with};
ghost use Rattle.suolluvik.specs.Numbered.{numbered, numbered_float};

use lines::filling::fill_scalars;
use lines::metric::advance_delta_fixed_with;
use suolluvik::answers::answered;
use suolluvik::deltas::float_value;

// Fills a list with the scalars of the regions of the store at an offset; count is how many there are.
#[unsafe(no_mangle)]
pub extern "C" fn suolluvik_fill_scalars(
    font: &[u8],
    store: u32,
    coords: &[i16],
    scalars: &mut [i32],
    count: &mut u16,
) -> u8
    ensures count { (result, count.new) ≡ numbered 0 (fill_count font.now store (length scalars.old)) }
    ensures list { scalars.new ≡ filled font.now store coords.now scalars.old }
{
    answered(fill_scalars(font, store, coords, scalars), 0, count)
}

// The delta of a glyph's advance by the HVAR or VVAR at xvar, with a filled list; as a float.
#[unsafe(no_mangle)]
pub extern "C" fn suolluvik_advance_delta_with(
    font: &[u8],
    xvar: u32,
    glyph_id: u16,
    scalars: &[i32],
    value: &mut f32,
) -> u8
    ensures { (result, value.new) ≡ numbered_float (metric_delta_with font.now xvar advance glyph_id scalars.now) }
{
    float_value(
        advance_delta_fixed_with(font, xvar, glyph_id, scalars),
        value,
    )
}
