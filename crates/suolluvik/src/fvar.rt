// Axes and instances of a bare fvar table.
ghost use Rattle.std.specs.Prelude.{◌≡◌, length};
ghost use Rattle.numbers.specs.Floats.{to_float};
ghost use Rattle.readers.specs.Outcome.{number, value_or};
ghost use Rattle.opentype.specs.Axis.{no_axis};
ghost use Rattle.axes.specs.AxisAnswers.{axis_of};
ghost use Rattle.opentype.specs.Fvar.{header_of};
ghost use Rattle.opentype.specs.Values.{float_count, floats_in};
ghost use Rattle.suolluvik.specs.Numbered.{numbered};
ghost use Rattle.suolluvik.specs.Fvar.{axis_in, tagged_in, instance_in, no_instance, is_named, name_or_zero};

use crate::answers::answered;
use axes::axis::VarAxis;
use axes::fvar::{Fvar, VarInstance};
use numbers::Fixed;

// How many axes the header counts, and how many instances; 0 where that can't be read.
#[unsafe(no_mangle)]
pub extern "C" fn suolluvik_axis_count(fvar: &[u8]) -> u16
    ensures { result ≡ (header_of fvar.now).axis_count }
{
    Fvar::new(fvar).axis_count
}

#[unsafe(no_mangle)]
pub extern "C" fn suolluvik_instance_count(fvar: &[u8]) -> u16
    ensures { result ≡ (header_of fvar.now).instance_count }
{
    Fvar::new(fvar).inst_count
}

// A 16.16 number, as an axis has them, as a float.
#[unsafe(no_mangle)]
pub extern "C" fn suolluvik_fixed_to_f32(fixed: i32) -> f32
    ensures { result ≡ to_float fixed }
{
    Fixed(fixed).into()
}

// The fields of an axis, but for its tag and its index.
fn put_axis(
    axis: VarAxis,
    min: &mut i32,
    default_value: &mut i32,
    max: &mut i32,
    flags: &mut u16,
    name_id: &mut u16,
)
    ensures min { min.new ≡ (axis_of axis).min_value }
    ensures default { default_value.new ≡ (axis_of axis).default_value }
    ensures max { max.new ≡ (axis_of axis).max_value }
    ensures flags { flags.new ≡ (axis_of axis).flags }
    ensures name { name_id.new ≡ (axis_of axis).axis_name_id }
{
    *min = axis.min.0;
    *default_value = axis.default.0;
    *max = axis.max.0;
    *flags = axis.flags;
    *name_id = axis.name_id;
}

// Axis `index`: min, default and max are 16.16 numbers.
#[unsafe(no_mangle)]
pub extern "C" fn suolluvik_axis(
    fvar: &[u8],
    index: u16,
    tag: &mut u32,
    min: &mut i32,
    default_value: &mut i32,
    max: &mut i32,
    flags: &mut u16,
    name_id: &mut u16,
) -> u8
    ensures number { result ≡ number (axis_in fvar.now index) }
    ensures tag { tag.new ≡ (value_or no_axis (axis_in fvar.now index)).axis_tag }
    ensures min { min.new ≡ (value_or no_axis (axis_in fvar.now index)).min_value }
    ensures default { default_value.new ≡ (value_or no_axis (axis_in fvar.now index)).default_value }
    ensures max { max.new ≡ (value_or no_axis (axis_in fvar.now index)).max_value }
    ensures flags { flags.new ≡ (value_or no_axis (axis_in fvar.now index)).flags }
    ensures name { name_id.new ≡ (value_or no_axis (axis_in fvar.now index)).axis_name_id }
{
    let mut axis = VarAxis::NONE;
    let number = answered(
        Fvar::new(fvar).get_axis(fvar, index),
        VarAxis::NONE,
        &mut axis,
    );
    *tag = axis.tag;
    put_axis(axis, min, default_value, max, flags, name_id);
    number
}

// The first axis with a tag.
#[unsafe(no_mangle)]
pub extern "C" fn suolluvik_axis_by_tag(
    fvar: &[u8],
    tag: u32,
    index: &mut u16,
    min: &mut i32,
    default_value: &mut i32,
    max: &mut i32,
    flags: &mut u16,
    name_id: &mut u16,
) -> u8
    ensures number { result ≡ number (tagged_in fvar.now tag) }
    ensures index { index.new ≡ (value_or no_axis (tagged_in fvar.now tag)).index }
    ensures min { min.new ≡ (value_or no_axis (tagged_in fvar.now tag)).min_value }
    ensures default { default_value.new ≡ (value_or no_axis (tagged_in fvar.now tag)).default_value }
    ensures max { max.new ≡ (value_or no_axis (tagged_in fvar.now tag)).max_value }
    ensures flags { flags.new ≡ (value_or no_axis (tagged_in fvar.now tag)).flags }
    ensures name { name_id.new ≡ (value_or no_axis (tagged_in fvar.now tag)).axis_name_id }
{
    let mut axis = VarAxis::NONE;
    let number = answered(
        Fvar::new(fvar).get_axis_by_tag(fvar, tag),
        VarAxis::NONE,
        &mut axis,
    );
    *index = axis.index;
    put_axis(axis, min, default_value, max, flags, name_id);
    number
}

// Instance `index`: its name id; whether it has a PostScript name id, 1 or 0, and that.
#[unsafe(no_mangle)]
pub extern "C" fn suolluvik_instance(
    fvar: &[u8],
    index: u16,
    name_id: &mut u16,
    has_postscript_name: &mut u8,
    postscript_name_id: &mut u16,
) -> u8
    ensures number { result ≡ number (instance_in fvar.now index) }
    ensures name { name_id.new ≡ (value_or no_instance (instance_in fvar.now index)).subfamily_name_id }
    ensures has { has_postscript_name.new ≡ is_named (value_or no_instance (instance_in fvar.now index)).post_script_name_id }
    ensures postscript { postscript_name_id.new ≡ name_or_zero (value_or no_instance (instance_in fvar.now index)).post_script_name_id }
{
    let mut instance = VarInstance::NONE;
    let number = answered(
        Fvar::new(fvar).get_instance(fvar, index),
        VarInstance::NONE,
        &mut instance,
    );
    *name_id = instance.name_id;
    *has_postscript_name = u8::from(instance.postscript_name_id.is_some());
    *postscript_name_id = instance.postscript_name_id.unwrap_or(0);
    number
}

// The values of an instance, one for each axis, in the first elements of out; count is how many.
#[unsafe(no_mangle)]
pub extern "C" fn suolluvik_instance_floats(
    fvar: &[u8],
    index: u16,
    out: &mut [f32],
    count: &mut u16,
) -> u8
    ensures count { (result, count.new) ≡ numbered 0 (float_count fvar.now (header_of fvar.now) index (length out.old)) }
    ensures list { out.new ≡ floats_in fvar.now (header_of fvar.now) index out.old }
{
    answered(Fvar::new(fvar).instance_floats(fvar, index, out), 0, count)
}
