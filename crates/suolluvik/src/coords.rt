// Coordinate lists: from settings, and for an instance. The fvar table is lent bare; avar is an offset in the font, 0 for none.
ghost use Rattle.std.specs.Prelude.{◌≡◌, length};
ghost use Rattle.opentype.specs.Fvar.{header_of};
ghost use Rattle.opentype.specs.Variation.{settings_count, settings_coords, instance_count, instance_coords};
ghost use Rattle.suolluvik.specs.Numbered.{numbered};

use crate::answers::answered;
use axes::fvar::Fvar;
use axes::variation::{instance_coords, normalized_coords};

// The coordinates that settings give, tags[s] with values[s]: at most 32; count is how many.
#[unsafe(no_mangle)]
pub extern "C" fn suolluvik_normalized_coords(
    fvar: &[u8],
    font: &[u8],
    avar: u32,
    tags: &[u32],
    values: &[f32],
    out: &mut [i16],
    count: &mut u16,
) -> u8
    ensures count { (result, count.new) ≡ numbered 0 (settings_count fvar.now (header_of fvar.now) font.now avar tags.now values.now (length out.old)) }
    ensures list { out.new ≡ settings_coords fvar.now (header_of fvar.now) font.now avar tags.now values.now out.old }
{
    let header = Fvar::new(fvar);
    answered(
        normalized_coords(header, fvar, font, avar, tags, values, out),
        0,
        count,
    )
}

// The coordinates of an instance, one for each axis.
#[unsafe(no_mangle)]
pub extern "C" fn suolluvik_instance_coords(
    fvar: &[u8],
    font: &[u8],
    avar: u32,
    index: u16,
    out: &mut [i16],
    count: &mut u16,
) -> u8
    ensures count { (result, count.new) ≡ numbered 0 (instance_count fvar.now (header_of fvar.now) font.now avar index (length out.old)) }
    ensures list { out.new ≡ instance_coords fvar.now (header_of fvar.now) font.now avar index out.old }
{
    let header = Fvar::new(fvar);
    answered(
        instance_coords(header, fvar, font, avar, index, out),
        0,
        count,
    )
}
