// Cases of fvar: the header, axes, instances and their values.
use crate::parse::{Rooms, bits, bytes, index, room};
use crate::print::{Bits, Output, Print};
use axes::axis::VarAxis;
use axes::fvar::{Fvar, VarInstance};

pub(crate) fn answer(words: &[&[u8]], rooms: &mut Rooms, out: &mut Output) -> Option<()> {
    match words {
        [b"header", table] => {
            let fvar = Fvar::new(bytes(table, &mut rooms.table)?);
            let numbers = [
                fvar.axis_offset,
                fvar.axis_count,
                fvar.axis_size,
                fvar.inst_count,
                fvar.inst_size,
            ];
            out.values(&numbers)
        }
        [name, table, what] => {
            return of_table(name, bytes(table, &mut rooms.table)?, what, out);
        }
        // the largest float stands where none was written: no 16.16 number has it
        [b"instance_floats", table, i, size] => {
            let i = index(i)?;
            let mut floats = room(size, f32::MAX)?;
            let table = bytes(table, &mut rooms.table)?;
            let fvar = Fvar::new(table);
            out.put(fvar.instance_floats(table, i, &mut floats));
            out.list(&floats)
        }
        _ => return None,
    }
    Some(())
}

fn of_table(name: &[u8], table: &[u8], what: &[u8], out: &mut Output) -> Option<()> {
    let fvar = Fvar::new(table);
    match name {
        b"get_axis_by_tag" => out.put(fvar.get_axis_by_tag(table, bits(what)?)),
        b"find_by_tag" => out.put(fvar.find_by_tag(table, bits(what)?)),
        b"get_axis" => out.put(fvar.get_axis(table, index(what)?)),
        b"get_instance" => out.put(fvar.get_instance(table, index(what)?)),
        b"instance_values" => out.put(fvar.instance_values(table, index(what)?)),
        b"instance_value" => out.put(axes::fvar::instance_value(table, index(what)?)),
        _ => return None,
    }
    Some(())
}

// Its numbers, and what its methods answer.
impl Print for VarAxis {
    fn print(self, out: &mut Output) {
        out.put(self.index);
        out.next(Bits(self.tag));
        out.next(self.min);
        out.next(self.default);
        out.next(self.max);
        out.next(self.flags);
        out.next(self.name_id);
        out.next(self.is_hidden());
        out.next(self.min_value());
        out.next(self.default_value());
        out.next(self.max_value())
    }
}

impl Print for VarInstance {
    fn print(self, out: &mut Output) {
        out.put(self.index);
        out.next(self.name_id);
        out.next(self.postscript_name_id)
    }
}
