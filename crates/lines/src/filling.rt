// The scalars of a store's regions, into a lent list.
ghost use Rattle.std.specs.Prelude.{◌≡◌, ◌≤◌, length};
ghost use Rattle.readers.specs.Lent.{fill};
ghost use Rattle.readers.specs.Reading.{run};
ghost use Rattle.readers.specs.Answers.{outcome, outcome_as};
ghost use Rattle.opentype.specs.Lines.{kept_scalar, fill_count, filled};
ghost use Rattle.lines.specs.LinesAnswers.{regions_of, regions_in};

use numbers::Fixed;
use readers::{FromBeData, Refusal};
use store::item::scalar_in;

// A store's region list: its store, and its offset from there.
#[derive(Clone, Copy)]
struct RegionList {
    store: u32,
    offset: u32,
    axis_count: u16,
    region_count: u16,
}

impl RegionList {
    // The region list of a store, whose two counts are tested once.
    fn of(font: &[u8], store: u32) -> Result<RegionList, Refusal>
        ensures { outcome_as regions_of result ≡ run font.now (regions_in store) }
    {
        if store == 0 {
            return Err(Refusal::Absent);
        }
        let base = store as usize;
        if font.len() < base + 6 {
            return Err(Refusal::Short);
        }
        let offset = u32::from_be_data(font, base + 2);
        let list = base + offset as usize;
        if font.len() < list + 4 {
            return Err(Refusal::Short);
        }
        Ok(RegionList {
            store,
            offset,
            axis_count: u16::from_be_data(font, list),
            region_count: u16::from_be_data(font, list + 2),
        })
    }

    // What is kept for a region: −1 where its record runs out before its scalar is known. The list is lent by C, as numbers, so no `Option` can stand in it.
    fn kept_scalar(self, font: &[u8], region: u16, coords: &[i16]) -> Fixed
        ensures { result.0 ≡ kept_scalar font.now coords.now (regions_of self) region }
    {
        scalar_in(
            font,
            self.store,
            self.offset,
            self.axis_count,
            region,
            coords,
        )
        .unwrap_or(Fixed(-1))
    }

    fn write_scalars(self, font: &[u8], coords: &[i16], scalars: &mut [i32])
        requires { self.region_count ≤ length scalars.old }
        ensures { scalars.new ≡ fill (kept_scalar font.now coords.now (regions_of self)) self.region_count scalars.old }
    {
        for region in 0..self.region_count {
            scalars[region as usize] = self.kept_scalar(font, region, coords).0;
        }
    }
}

// Fills a list with the scalars of the regions of a store; answers how many there are.
pub fn fill_scalars(
    font: &[u8],
    store: u32,
    coords: &[i16],
    scalars: &mut [i32],
) -> Result<u16, Refusal>
    ensures count { outcome result ≡ fill_count font.now store (length scalars.old) }
    ensures list { scalars.new ≡ filled font.now store coords.now scalars.old }
{
    let regions = RegionList::of(font, store)?;
    if scalars.len() < regions.region_count as usize {
        return Err(Refusal::Room);
    }
    regions.write_scalars(font, coords, scalars);
    Ok(regions.region_count)
}
