// The exports of `suolluvik::fvar`, for C: each calls it and has its contract.
ghost use Rattle.std.specs.Prelude.{◌≡◌, length};
ghost use Rattle.numbers.specs.Floats.{to_float};
ghost use Rattle.readers.specs.Outcome.{number, value_or};
ghost use Rattle.opentype.specs.Axis.{no_axis};
ghost use Rattle.opentype.specs.Fvar.{header_of};
ghost use Rattle.opentype.specs.Values.{float_count, floats_in};
ghost use Rattle.suolluvik.specs.Numbered.{numbered};
ghost use Rattle.suolluvik.specs.Fvar.{axis_in, tagged_in, instance_in, no_instance, is_named, name_or_zero};

#[unsafe(no_mangle)]
pub extern "C" fn suolluvik_axis_count(fvar: &[u8]) -> u16
    ensures { result ≡ (header_of fvar.now).axis_count }
{
    suolluvik::fvar::suolluvik_axis_count(fvar)
}

#[unsafe(no_mangle)]
pub extern "C" fn suolluvik_instance_count(fvar: &[u8]) -> u16
    ensures { result ≡ (header_of fvar.now).instance_count }
{
    suolluvik::fvar::suolluvik_instance_count(fvar)
}

#[unsafe(no_mangle)]
pub extern "C" fn suolluvik_fixed_to_f32(fixed: i32) -> f32
    ensures { result ≡ to_float fixed }
{
    suolluvik::fvar::suolluvik_fixed_to_f32(fixed)
}

#[unsafe(no_mangle)]
pub extern "C" fn suolluvik_axis(
    fvar: &[u8],
    index: u16,
    tag: &mut u32,
    min: &mut i32,
    default_value: &mut i32,
    max: &mut i32,
    flags: &mut u16,
    name_id: &mut u16,
) -> u8
    ensures number { result ≡ number (axis_in fvar.now index) }
    ensures tag { tag.new ≡ (value_or no_axis (axis_in fvar.now index)).axis_tag }
    ensures min { min.new ≡ (value_or no_axis (axis_in fvar.now index)).min_value }
    ensures default { default_value.new ≡ (value_or no_axis (axis_in fvar.now index)).default_value }
    ensures max { max.new ≡ (value_or no_axis (axis_in fvar.now index)).max_value }
    ensures flags { flags.new ≡ (value_or no_axis (axis_in fvar.now index)).flags }
    ensures name { name_id.new ≡ (value_or no_axis (axis_in fvar.now index)).axis_name_id }
{
    suolluvik::fvar::suolluvik_axis(fvar, index, tag, min, default_value, max, flags, name_id)
}

#[unsafe(no_mangle)]
pub extern "C" fn suolluvik_axis_by_tag(
    fvar: &[u8],
    tag: u32,
    index: &mut u16,
    min: &mut i32,
    default_value: &mut i32,
    max: &mut i32,
    flags: &mut u16,
    name_id: &mut u16,
) -> u8
    ensures number { result ≡ number (tagged_in fvar.now tag) }
    ensures index { index.new ≡ (value_or no_axis (tagged_in fvar.now tag)).index }
    ensures min { min.new ≡ (value_or no_axis (tagged_in fvar.now tag)).min_value }
    ensures default { default_value.new ≡ (value_or no_axis (tagged_in fvar.now tag)).default_value }
    ensures max { max.new ≡ (value_or no_axis (tagged_in fvar.now tag)).max_value }
    ensures flags { flags.new ≡ (value_or no_axis (tagged_in fvar.now tag)).flags }
    ensures name { name_id.new ≡ (value_or no_axis (tagged_in fvar.now tag)).axis_name_id }
{
    suolluvik::fvar::suolluvik_axis_by_tag(
        fvar,
        tag,
        index,
        min,
        default_value,
        max,
        flags,
        name_id,
    )
}

#[unsafe(no_mangle)]
pub extern "C" fn suolluvik_instance(
    fvar: &[u8],
    index: u16,
    name_id: &mut u16,
    has_postscript_name: &mut u8,
    postscript_name_id: &mut u16,
) -> u8
    ensures number { result ≡ number (instance_in fvar.now index) }
    ensures name { name_id.new ≡ (value_or no_instance (instance_in fvar.now index)).subfamily_name_id }
    ensures has { has_postscript_name.new ≡ is_named (value_or no_instance (instance_in fvar.now index)).post_script_name_id }
    ensures postscript { postscript_name_id.new ≡ name_or_zero (value_or no_instance (instance_in fvar.now index)).post_script_name_id }
{
    suolluvik::fvar::suolluvik_instance(
        fvar,
        index,
        name_id,
        has_postscript_name,
        postscript_name_id,
    )
}

#[unsafe(no_mangle)]
pub extern "C" fn suolluvik_instance_floats(
    fvar: &[u8],
    index: u16,
    out: &mut [f32],
    count: &mut u16,
) -> u8
    ensures count { (result, count.new) ≡ numbered 0 (float_count fvar.now (header_of fvar.now) index (length out.old)) }
    ensures list { out.new ≡ floats_in fvar.now (header_of fvar.now) index out.old }
{
    suolluvik::fvar::suolluvik_instance_floats(fvar, index, out, count)
}
