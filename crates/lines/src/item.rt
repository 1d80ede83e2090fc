// A delta of the item variation store, with the scalars of its regions in a list.
ghost use Rattle.std.specs.Prelude.{◌≡◌, ◌+◌, ◌*◌, ◌^◌, ◌<◌, ◌≤◌, length};
ghost use Rattle.readers.specs.Outcome.{value};
ghost use Rattle.readers.specs.Reading.{run};
ghost use Rattle.readers.specs.Answers.{outcome, outcome_as, outcome_fixed};
ghost use Rattle.opentype.specs.Item.{row_at, delta_at, row_sum};
ghost use Rattle.opentype.specs.Lines.{scalar_from, item_delta_with};
ghost use Rattle.lines.specs.LinesAnswers.{row_from, entry_end, named_scalar, counted_regions};

use numbers::Fixed;
use readers::{FromBeData, Refusal};

// A row, and the region indexes of its subtable: where each of the two starts, how many entries they have, and how many of the row's are words.
#[derive(Clone, Copy)]
struct Row {
    indexes: usize,
    start: usize,
    count: u16,
    word_count: u16,
    ghost few_words: { word_count ≤ count },
    ghost indexes_before: { indexes + 2 * count ≤ start },
    ghost start_bound: { start < 2 ^ 40 },
}

impl Row {
    // The row of a delta-set index, which must be inside its subtable's item count.
    fn at(font: &[u8], store: u32, outer: u32, inner: u16) -> Result<Row, Refusal>
        ensures { outcome_as (λ r. row_from r.indexes r.count r.word_count r.start) result ≡ run font.now (row_at store outer inner) }
    {
        let base = store as usize;
        let at = base + 8 + 4 * (outer as usize);
        if font.len() < at + 4 {
            return Err(Refusal::Short);
        }
        let subtable = base + u32::from_be_data(font, at) as usize;
        if font.len() < subtable + 6 {
            return Err(Refusal::Short);
        }
        let count = u16::from_be_data(font, subtable + 4);
        let word_count = u16::from_be_data(font, subtable + 2);
        if word_count > count {
            return Err(Refusal::Arithmetic);
        }
        if inner >= u16::from_be_data(font, subtable) {
            return Err(Refusal::Index);
        }
        let indexes = subtable + 6;
        let start = indexes
            + 2 * (count as usize)
            + (inner as usize) * ((count as usize) + (word_count as usize));
        Ok(Row {
            indexes,
            start,
            count,
            word_count,
        })
    }

    fn end(self) -> usize
        ensures { result ≡ self.start + (self.count + self.word_count) }
    {
        self.start + ((self.count as usize) + (self.word_count as usize))
    }

    // Where entry k ends.
    fn entry_end(self, k: u16) -> usize
        ensures { result ≡ entry_end self.word_count self.start k }
    {
        if k < self.word_count {
            return self.start + 2 * (k as usize) + 2;
        }
        self.start + ((self.word_count as usize) + (k as usize)) + 1
    }

    // Entry k, which is there.
    fn entry(self, font: &[u8], k: u16) -> i16
        requires { entry_end self.word_count self.start k ≤ length font.now }
        ensures { value result ≡ run font.now (delta_at self.word_count self.start k) }
    {
        if k < self.word_count {
            return i16::from_be_data(font, self.start + 2 * (k as usize));
        }
        i16::from(i8::from_be_data(
            font,
            self.start + ((self.word_count as usize) + (k as usize)),
        ))
    }

    // The scalar of the region that index k names; the index is there, and the list has a number for each region.
    fn scalar(self, font: &[u8], k: u16, scalars: &[i32]) -> Result<Fixed, Refusal>
        requires { self.indexes + 2 * k + 2 ≤ length font.now }
        ensures { outcome_fixed result ≡ run font.now (named_scalar scalars.now (self.indexes + 2 * k)) }
    {
        let region = u16::from_be_data(font, self.indexes + 2 * (k as usize));
        let Some(&scalar) = scalars.get(region as usize) else {
            return Err(Refusal::Index);
        };
        // filling's mark of a region that could not be read
        if scalar == -1 {
            return Err(Refusal::Short);
        }
        Ok(Fixed(scalar))
    }

    // The sum over the row: of each region in turn its index, its scalar, its entry. There are two loops, since a test for each read is slower where none is needed (measured: DECISIONS 120).
    fn sum(self, font: &[u8], scalars: &[i32]) -> Result<Fixed, Refusal>
        ensures { outcome_fixed result ≡ run font.now (row_sum (scalar_from scalars.now) (length scalars.now) (row_from self.indexes self.count self.word_count self.start)) }
    {
        if font.len() < self.end() {
            return self.cut_sum(font, scalars);
        }
        self.whole_sum(font, scalars)
    }

    // Here all that is read is there, ..
    fn whole_sum(self, font: &[u8], scalars: &[i32]) -> Result<Fixed, Refusal>
        requires { self.start + (self.count + self.word_count) ≤ length font.now }
        ensures { outcome_fixed result ≡ run font.now (row_sum (scalar_from scalars.now) (length scalars.now) (row_from self.indexes self.count self.word_count self.start)) }
    {
        let mut sum = Fixed::ZERO;
        for k in 0..self.count {
            let scalar = self.scalar(font, k, scalars)?;
            sum = sum.add_product(scalar, self.entry(font, k));
        }
        Ok(sum)
    }

    // .. and here each read is tested.
    fn cut_sum(self, font: &[u8], scalars: &[i32]) -> Result<Fixed, Refusal>
        ensures { outcome_fixed result ≡ run font.now (row_sum (scalar_from scalars.now) (length scalars.now) (row_from self.indexes self.count self.word_count self.start)) }
    {
        let mut sum = Fixed::ZERO;
        for k in 0..self.count {
            if font.len() < self.indexes + 2 * (k as usize) + 2 {
                return Err(Refusal::Short);
            }
            let scalar = self.scalar(font, k, scalars)?;
            if font.len() < self.entry_end(k) {
                return Err(Refusal::Short);
            }
            sum = sum.add_product(scalar, self.entry(font, k));
        }
        Ok(sum)
    }
}

// How many regions a store has, where it lists the subtable `outer`. Filling's `RegionList::of` doesn't serve: here that index is tested before the list.
fn region_count(font: &[u8], store: u32, outer: u32) -> Result<u16, Refusal>
    ensures { outcome result ≡ run font.now (counted_regions store outer) }
{
    if store == 0 {
        return Err(Refusal::Absent);
    }
    let base = store as usize;
    if font.len() < base + 8 {
        return Err(Refusal::Short);
    }
    if outer >= u16::from_be_data(font, base + 6) as u32 {
        return Err(Refusal::Index);
    }
    let list = base + u32::from_be_data(font, base + 2) as usize;
    if font.len() < list + 4 {
        return Err(Refusal::Short);
    }
    Ok(u16::from_be_data(font, list + 2))
}

// Returns a delta from an item variation store.
pub fn item_delta_with(
    font: &[u8],
    store: u32,
    outer: u32,
    inner: u16,
    scalars: &[i32],
) -> Result<Fixed, Refusal>
    ensures { outcome_fixed result ≡ item_delta_with font.now store outer inner scalars.now }
{
    let regions = region_count(font, store, outer)? as usize;
    let row = Row::at(font, store, outer, inner)?;
    if scalars.len() < regions {
        return Err(Refusal::Room);
    }
    row.sum(font, &scalars[..regions])
}
