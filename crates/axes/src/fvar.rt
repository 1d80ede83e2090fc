// fvar: header, axes, instances (swash's `Fvar`). The header is taken once, by value; each function is lent the table beside it: over a struct
// that held the table, the theorems of one answer (`proofs/FvarOne.antt`) would have no plain statement.
ghost use Rattle.std.specs.Prelude.{◌+◌, ◌*◌, ◌^◌, ◌<◌, ◌≡◌, length, IfOk};
ghost use Rattle.readers.specs.Reading.{run};
ghost use Rattle.readers.specs.Answers.{outcome, outcome_as, outcome_fixed};
ghost use Rattle.opentype.specs.Fvar.{header_of, field_at, axis_record, axis, axis_by_tag, instance_start, instance_record, post_script_name_id, instance, instance_values, instance_value};
ghost use Rattle.axes.specs.FvarAnswers.{header, axis_outcome, name_of, instance_outcome, record_outcome};
ghost use Rattle.opentype.specs.Values.{value_in, float_count, floats_in};

use crate::axis::VarAxis;
use numbers::Fixed;
use readers::{FromBeData, Refusal, read};

// Font variations table: the numbers of its header.
#[derive(Clone, Copy)]
pub struct Fvar {
    pub axis_offset: u16,
    pub axis_count: u16,
    pub axis_size: u16,
    pub inst_count: u16,
    pub inst_size: u16,
}

// Named instance in a variable font; its values are a part of the table (`instance_values`).
#[derive(Clone, Copy)]
pub struct VarInstance {
    pub index: u16,
    pub name_id: u16,
    pub postscript_name_id: Option<u16>,
}

impl VarInstance {
    // What stands for an instance that cannot be read.
    pub const NONE: VarInstance = VarInstance {
        index: 0,
        name_id: 0,
        postscript_name_id: None,
    };
}

// An instance's name id, and where its values start.
#[derive(Clone, Copy)]
struct Record {
    name_id: u16,
    coordinates: usize,
}

// Two bytes; 0 where they can't be read.
fn field_at(table: &[u8], at: usize) -> u16
    ensures { result ≡ field_at table.now at }
{
    read(table, at).unwrap_or(0)
}

// The axis record at a position; an axis starts below 2^33. Its reads would all refuse alike: its twenty bytes are tested once.
fn axis_at(table: &[u8], index: u16, at: usize) -> Result<VarAxis, Refusal>
    requires { at < 2 ^ 34 }
    ensures { axis_outcome result ≡ run table.now (axis_record index at) }
{
    if table.len() < at + 20 {
        return Err(Refusal::Short);
    }
    Ok(VarAxis {
        index,
        tag: u32::from_be_data(table, at),
        min: Fixed::from_be_data(table, at + 4),
        default: Fixed::from_be_data(table, at + 8),
        max: Fixed::from_be_data(table, at + 12),
        flags: u16::from_be_data(table, at + 16),
        name_id: u16::from_be_data(table, at + 18),
    })
}

impl Fvar {
    // The header of a table; a field that cannot be read is 0.
    pub fn new(table: &[u8]) -> Fvar
        ensures { header result ≡ header_of table.now }
    {
        Fvar {
            axis_offset: field_at(table, 4),
            axis_count: field_at(table, 8),
            axis_size: field_at(table, 10),
            inst_count: field_at(table, 12),
            inst_size: field_at(table, 14),
        }
    }

    fn axis_start(self, index: u16) -> usize
        ensures { (result ≡ (header self).axes_array_offset + index * (header self).axis_size) × (result < 2 ^ 33) }
    {
        usize::from(self.axis_offset) + usize::from(index) * usize::from(self.axis_size)
    }

    fn instance_start(self, index: u16) -> usize
        ensures { (result ≡ instance_start (header self) index) × (result < 2 ^ 34) }
    {
        self.axis_start(self.axis_count) + usize::from(index) * usize::from(self.inst_size)
    }

    pub fn get_axis(self, table: &[u8], index: u16) -> Result<VarAxis, Refusal>
        ensures { axis_outcome result ≡ run table.now (axis (header self) index) }
    {
        if index >= self.axis_count {
            return Err(Refusal::Index);
        }
        axis_at(table, index, self.axis_start(index))
    }

    // The first axis whose tag's four bytes match, if all of it is there: no axis after one that is cut could be read.
    pub fn get_axis_by_tag(self, table: &[u8], tag: u32) -> Result<VarAxis, Refusal>
        ensures { axis_outcome result ≡ axis_by_tag table.now (header self) tag }
    {
        for i in 0..self.axis_count {
            if read(table, self.axis_start(i)) == Ok(tag) {
                return self.get_axis(table, i).or(Err(Refusal::Tag));
            }
        }
        Err(Refusal::Tag)
    }

    // The same search as swash's variation.rs has it, which has both (DECISIONS 14): it steps past an axis that cannot be read.
    pub fn find_by_tag(self, table: &[u8], tag: u32) -> Result<VarAxis, Refusal>
        ensures { axis_outcome result ≡ axis_by_tag table.now (header self) tag }
    {
        for i in 0..self.axis_count {
            // nested: where the `let` of a chain fails, no proof is told that it did
            if let Ok(axis) = self.get_axis(table, i) {
                if axis.tag == tag {
                    return Ok(axis);
                }
            }
        }
        Err(Refusal::Tag)
    }

    // In document 01's order: 3, name id, values, 5.
    fn instance_record(self, table: &[u8], index: u16) -> Result<Record, Refusal>
        ensures { record_outcome result ≡ run table.now (instance_record (header self) index) }
    {
        if index >= self.inst_count {
            return Err(Refusal::Index);
        }
        let start = self.instance_start(index);
        let name_id = read(table, start)?;
        let coordinates = start + 4;
        let end = coordinates + 4 * usize::from(self.axis_count);
        if coordinates >= table.len() {
            return Err(Refusal::Short); // as `read_array`, even where there are no axes
        }
        if end > table.len() {
            return Err(Refusal::Short);
        }
        if self.inst_size < 2 {
            return Err(Refusal::Arithmetic);
        }
        Ok(Record {
            name_id,
            coordinates,
        })
    }

    // At the end of the instance's own record (W-203).
    fn postscript_name_id(self, table: &[u8], index: u16) -> Option<u16>
        ensures { name_of result ≡ post_script_name_id table.now (header self) (instance_start (header self) index) }
    {
        let at = 4 + 4 * usize::from(self.axis_count);
        if at + 2 != usize::from(self.inst_size) {
            return None;
        }
        let start = self.instance_start(index);
        let id = read(table, start + at).ok()?;
        (id != 0xffff).then_some(id) // 0xffff says that there is none
    }

    pub fn get_instance(self, table: &[u8], index: u16) -> Result<VarInstance, Refusal>
        ensures { instance_outcome result ≡ instance table.now (header self) index }
    {
        let record = self.instance_record(table, index)?;
        Ok(VarInstance {
            index,
            name_id: record.name_id,
            postscript_name_id: self.postscript_name_id(table, index),
        })
    }

    // The values of an instance, four bytes for each axis: the very part of the table.
    pub fn instance_values<'a>(self, table: &'a [u8], index: u16) -> Result<&'a [u8], Refusal>
        ensures part { outcome_as (λ v. v.now) result ≡ instance_values table.now (header self) index }
        ensures place { IfOk result
            (λ v. (v.ref_ptr.0 ≡ table.entry.ref_ptr.0)
            × (v.ref_ptr.1 ≡ table.entry.ref_ptr.1 + (instance_start (header self) index + 4))) }
    {
        let from = self.instance_record(table, index)?.coordinates;
        let to = from + 4 * usize::from(self.axis_count);
        Ok(&table[from..to])
    }

    // The values as floats; nothing is written on a refusal.
    pub fn instance_floats(self, table: &[u8], index: u16, out: &mut [f32]) -> Result<u16, Refusal>
        ensures count { outcome result ≡ float_count table.now (header self) index (length out.old) }
        ensures list { out.new ≡ floats_in table.now (header self) index out.old }
    {
        let values = self.instance_values(table, index)?;
        let count = self.axis_count;
        if out.len() < usize::from(count) {
            return Err(Refusal::Room);
        }
        for i in 0..count {
            out[usize::from(i)] = value_or_zero(values, i).into();
        }
        Ok(count)
    }
}

// One value of an instance's part.
pub fn instance_value(values: &[u8], i: u16) -> Result<Fixed, Refusal>
    ensures { outcome_fixed result ≡ run values.now (instance_value i) }
{
    read(values, 4 * usize::from(i))
}

pub(crate) fn value_or_zero(values: &[u8], i: u16) -> Fixed
    ensures { result.0 ≡ value_in values.now i }
{
    instance_value(values, i).unwrap_or(Fixed::ZERO)
}
