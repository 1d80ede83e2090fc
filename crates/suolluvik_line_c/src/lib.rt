// The exports of `suolluvik_line`, for C: each calls it and has its contract. They are compiled by themselves, beside the rest of the library.
#![tactic(auto)]

ghost use Rattle.std.specs.Prelude.{◌≡◌, length};
ghost use Rattle.opentype.specs.Metric.{advance};
ghost use Rattle.opentype.specs.Lines.{fill_count, filled, metric_delta_with};
ghost use Rattle.suolluvik.specs.Numbered.{numbered, numbered_float};

#[unsafe(no_mangle)]
pub extern "C" fn suolluvik_fill_scalars(
    font: &[u8],
    store: u32,
    coords: &[i16],
    scalars: &mut [i32],
    count: &mut u16,
) -> u8
    ensures count { (result, count.new) ≡ numbered 0 (fill_count font.now store (length scalars.old)) }
    ensures list { scalars.new ≡ filled font.now store coords.now scalars.old }
{
    suolluvik_line::suolluvik_fill_scalars(font, store, coords, scalars, count)
}

#[unsafe(no_mangle)]
pub extern "C" fn suolluvik_advance_delta_with(
    font: &[u8],
    xvar: u32,
    glyph_id: u16,
    scalars: &[i32],
    value: &mut f32,
) -> u8
    ensures { (result, value.new) ≡ numbered_float (metric_delta_with font.now xvar advance glyph_id scalars.now) }
{
    suolluvik_line::suolluvik_advance_delta_with(font, xvar, glyph_id, scalars, value)
}
