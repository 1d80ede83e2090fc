// The exports of `suolluvik::coords`, for C: each calls it and has its contract.
ghost use Rattle.std.specs.Prelude.{◌≡◌, length};
ghost use Rattle.opentype.specs.Fvar.{header_of};
ghost use Rattle.opentype.specs.Variation.{settings_count, settings_coords, instance_count, instance_coords};
ghost use Rattle.suolluvik.specs.Numbered.{numbered};

#[unsafe(no_mangle)]
pub extern "C" fn suolluvik_normalized_coords(
    fvar: &[u8],
    font: &[u8],
    avar: u32,
    tags: &[u32],
    values: &[f32],
    out: &mut [i16],
    count: &mut u16,
) -> u8
    ensures count { (result, count.new) ≡ numbered 0 (settings_count fvar.now (header_of fvar.now) font.now avar tags.now values.now (length out.old)) }
    ensures list { out.new ≡ settings_coords fvar.now (header_of fvar.now) font.now avar tags.now values.now out.old }
{
    suolluvik::coords::suolluvik_normalized_coords(fvar, font, avar, tags, values, out, count)
}

#[unsafe(no_mangle)]
pub extern "C" fn suolluvik_instance_coords(
    fvar: &[u8],
    font: &[u8],
    avar: u32,
    index: u16,
    out: &mut [i16],
    count: &mut u16,
) -> u8
    ensures count { (result, count.new) ≡ numbered 0 (instance_count fvar.now (header_of fvar.now) font.now avar index (length out.old)) }
    ensures list { out.new ≡ instance_coords fvar.now (header_of fvar.now) font.now avar index out.old }
{
    suolluvik::coords::suolluvik_instance_coords(fvar, font, avar, index, out, count)
}
