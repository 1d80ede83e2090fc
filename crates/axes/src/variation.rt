// Coordinate lists: from settings, and for an instance (swash's variation.rs). A public function takes the header and its table, the font and its
// avar one by one: over a `Lent`, which holds references, the theorems of one answer (`proofs/VariationOne.antt`) would have no plain statement.
ghost use Rattle.std.specs.Prelude.{◌≡◌, ◌<◌, ◌≤◌, ℕ, ℤ, length, set};
ghost use Rattle.readers.specs.Outcome.{Outcome};
ghost use Rattle.readers.specs.Answers.{outcome, outcome_f2_dot14};
ghost use Rattle.opentype.specs.Variation.{passed, coords_in, axis_coord, setting_coord, settings_count, settings_coords, value_coord, instance_count, instance_coords};
ghost use Rattle.axes.specs.AxisAnswers.{axis_of, Answers};
ghost use Rattle.axes.specs.FvarAnswers.{header};

use crate::axis::VarAxis;
use crate::fvar::{Fvar, value_or_zero};
use numbers::{F2Dot14, Fixed};
use readers::Refusal;

// A call of its own: drawn in, the compiler fills the zeros that no settings give by `memset`, and whoever links the library would have to have that too.
#[inline(never)]
fn put_coord(coords: &mut [i16; 32], i: u16, coord: F2Dot14)
    requires { i < 32 }
    ensures { coords.new ≡ set coords.old i coord.0 }
{
    coords[usize::from(i)] = coord.0;
}

// The coordinates of the first count axes, at most 32, in the first elements of out; answers how many. They wait in a list of their own
// until none is refused, and none is worked out twice.
fn few_coords<F: Fn(u16) -> Result<F2Dot14, Refusal>>(
    coord: F,
    count: u16,
    out: &mut [i16],
) -> Result<u16, Refusal>
    requires callable { F.IsAlwaysCallable coord }
    requires count_bound { count ≤ 32 }
    requires count_in_bounds { count ≤ length out.old }
    ensures count { (of : ℕ → Outcome ℤ) → Answers (F.post coord) of → outcome result ≡ passed of count }
    ensures list { (of : ℕ → Outcome ℤ) → Answers (F.post coord) of → out.new ≡ coords_in of (passed of count) out.old }
{
    let mut coords = [0i16; 32];
    for i in 0..count {
        let c = coord(i)?;
        put_coord(&mut coords, i, c);
    }
    let len = usize::from(count);
    out[..len].copy_from_slice(&coords[..len]);
    Ok(count)
}

// The same of any number, in two passes: in the first nothing is written, and the first refusal is met.
fn many_coords<F: Fn(u16) -> Result<F2Dot14, Refusal>>(
    coord: F,
    count: u16,
    out: &mut [i16],
) -> Result<u16, Refusal>
    requires callable { F.IsAlwaysCallable coord }
    requires count_in_bounds { count ≤ length out.old }
    ensures count { (of : ℕ → Outcome ℤ) → Answers (F.post coord) of → outcome result ≡ passed of count }
    ensures list { (of : ℕ → Outcome ℤ) → Answers (F.post coord) of → out.new ≡ coords_in of (passed of count) out.old }
{
    for i in 0..count {
        coord(i)?;
    }
    for i in 0..count {
        out[usize::from(i)] = coord(i).unwrap_or(F2Dot14::ZERO).0;
    }
    Ok(count)
}

// What each coordinate is worked out from: the axes, and the avar at an offset in the font.
#[derive(Clone, Copy)]
struct Lent<'a> {
    fvar: Fvar,
    table: &'a [u8],
    font: &'a [u8],
    avar: u32,
}

impl Lent<'_> {
    // The coordinate of an axis: 0, or that of the last setting with the axis's tag.
    fn axis_coord(self, axis: VarAxis, tags: &[u32], values: &[f32]) -> Result<F2Dot14, Refusal>
        requires { length tags.now ≤ length values.now }
        ensures { outcome_f2_dot14 result ≡ axis_coord self.entry.font.now self.entry.avar (axis_of axis) tags.now values.now }
    {
        let mut coord = F2Dot14::ZERO;
        for (&tag, &value) in tags.iter().zip(values) {
            if tag == axis.tag {
                coord = axis.normalized_coord(value.into(), self.font, self.avar)?;
            }
        }
        Ok(coord)
    }

    // The coordinate of axis i. An axis that cannot be read has no tag.
    fn setting_coord(self, tags: &[u32], values: &[f32], i: u16) -> Result<F2Dot14, Refusal>
        requires { length tags.now ≤ length values.now }
        ensures { outcome_f2_dot14 result
            ≡ setting_coord self.entry.table.now (header self.entry.fvar) self.entry.font.now self.entry.avar tags.now values.now i }
    {
        match self.fvar.get_axis(self.table, i) {
            Ok(axis) => self.axis_coord(axis, tags, values),
            Err(_) => Ok(F2Dot14::ZERO),
        }
    }

    // The coordinate of axis i from its value in an instance's part; an axis that cannot be read is all zeros, with index 0.
    fn value_coord(self, part: &[u8], i: u16) -> Result<F2Dot14, Refusal>
        ensures { outcome_f2_dot14 result
            ≡ value_coord self.entry.table.now (header self.entry.fvar) self.entry.font.now self.entry.avar part.now i }
    {
        let axis = self.fvar.get_axis(self.table, i).unwrap_or(VarAxis::NONE);
        axis.normalized_coord(value_or_zero(part, i), self.font, self.avar)
    }
}

// The coordinates that settings give, tags[s] with values[s], two lists as C lends them, in the first elements of out; answers how many. As in swash they are at most
// 32.
pub fn normalized_coords(
    fvar: Fvar,
    table: &[u8],
    font: &[u8],
    avar: u32,
    tags: &[u32],
    values: &[f32],
    out: &mut [i16],
) -> Result<u16, Refusal>
    ensures count { outcome result ≡ settings_count table.now (header fvar) font.now avar tags.now values.now (length out.old) }
    ensures list { out.new ≡ settings_coords table.now (header fvar) font.now avar tags.now values.now out.old }
{
    if tags.len() != values.len() {
        return Err(Refusal::Lengths);
    }
    let count = fvar.axis_count.min(32);
    if out.len() < usize::from(count) {
        return Err(Refusal::Room);
    }
    let lent = Lent {
        fvar,
        table,
        font,
        avar,
    };
    few_coords(|i| lent.setting_coord(tags, values, i), count, out)
}

// The coordinates of a named instance, one for each axis, in the first elements of out; answers how many.
pub fn instance_coords(
    fvar: Fvar,
    table: &[u8],
    font: &[u8],
    avar: u32,
    index: u16,
    out: &mut [i16],
) -> Result<u16, Refusal>
    ensures count { outcome result ≡ instance_count table.now (header fvar) font.now avar index (length out.old) }
    ensures list { out.new ≡ instance_coords table.now (header fvar) font.now avar index out.old }
{
    let part = fvar.instance_values(table, index)?;
    let count = fvar.axis_count;
    if out.len() < usize::from(count) {
        return Err(Refusal::Room);
    }
    let lent = Lent {
        fvar,
        table,
        font,
        avar,
    };
    // a closure each: with one for both `few_coords` is not drawn in (measured: DECISIONS 138)
    if count <= 32 {
        few_coords(|i| lent.value_coord(part, i), count, out)
    } else {
        many_coords(|i| lent.value_coord(part, i), count, out)
    }
}
