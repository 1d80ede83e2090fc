// The lines of the axis listing, one at a time.
#![tactic(auto)]

mod text;

ghost use Rattle.std.specs.Prelude.{◌≡◌};
ghost use Rattle.listing.specs.Lines.{counts_line, axis_line, refused_line, too_long_line};

use arrayvec::ArrayVec;

// Room for any line: the longest is an axis's, of 63 bytes.
pub const ROOM: usize = 64;

// A line is the list of its bytes.
pub type Line = ArrayVec<u8, ROOM>;

// What an axis's line shows; min, default and max are the raw 16.16 numbers.
#[derive(Clone, Copy)]
pub struct Axis {
    pub index: u16,
    pub tag: u32,
    pub min: i32,
    pub default: i32,
    pub max: i32,
    pub flags: u16,
    pub name_id: u16,
}

// The first line: how many axes and instances there are.
pub fn counts_line(axes: u16, instances: u16) -> Line
    ensures { result.items ≡ counts_line axes instances }
{
    let mut line = Line::new();
    text::put_word(&mut line, b"axes", b' ');
    text::put_number(&mut line, axes, b' ');
    text::put_word(&mut line, b"instances", b' ');
    text::put_number(&mut line, instances, b'\n');
    line
}

pub fn axis_line(axis: Axis) -> Line
    ensures { result.items ≡ axis_line axis.index axis.tag axis.min axis.default axis.max axis.flags axis.name_id }
{
    let mut line = Line::new();
    text::put_number(&mut line, axis.index, b' ');
    text::put_hex8(&mut line, axis.tag, b' ');
    text::put_number(&mut line, axis.min, b' ');
    text::put_number(&mut line, axis.default, b' ');
    text::put_number(&mut line, axis.max, b' ');
    text::put_number(&mut line, axis.flags, b' ');
    text::put_number(&mut line, axis.name_id, b'\n');
    line
}

// An axis that is refused, with the refusal's number: this crate knows no fonts and no refusals.
pub fn refused_line(index: u16, number: u8) -> Line
    ensures { result.items ≡ refused_line index number }
{
    let mut line = Line::new();
    text::put_number(&mut line, index, b' ');
    text::put_word(&mut line, b"refused", b' ');
    text::put_number(&mut line, number, b'\n');
    line
}

// The one line for an input that is too long.
#[tactic(auto, unfolding(crate::specs::Lines::line, crate::specs::Lines::too_long_line))]
pub fn too_long_line() -> Line
    ensures { result.items ≡ too_long_line }
{
    let mut line = Line::new();
    text::put_word(&mut line, b"input too long", b'\n');
    line
}
