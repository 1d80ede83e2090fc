// A delta of the item variation store.
ghost use Rattle.std.specs.Prelude.{◌≡◌, ◌+◌, ◌*◌, ◌^◌, ◌<◌};
ghost use Rattle.readers.specs.Reading.{run};
ghost use Rattle.readers.specs.Answers.{outcome, outcome_fixed};
ghost use Rattle.opentype.specs.Region.{region_scalar};
ghost use Rattle.opentype.specs.Item.{region_list, row_at, item_at, region_index_at, delta_at, item_sum, item_delta};
ghost use Rattle.store.specs.ItemAnswers.{regions_outcome, row_outcome, item_of, item_outcome};

use crate::region::region_scalar;
use numbers::Fixed;
use readers::{Refusal, read};

// The region list: its store, and its offset from there (DECISIONS 80).
#[derive(Clone, Copy)]
struct RegionList {
    store: u32,
    offset: u32,
    axis_count: u16,
    region_count: u16,
}

// A subtable: its store, its offset from there, and how many entries of a row are words.
#[derive(Clone, Copy)]
struct ItemData {
    store: u32,
    offset: u32,
    region_index_count: u16,
    word_count: u16,
}

// What a store has for the rows of a subtable.
#[derive(Clone, Copy)]
struct Item {
    list: RegionList,
    data: ItemData,
}

fn region_list(font: &[u8], store: u32) -> Result<RegionList, Refusal>
    ensures { regions_outcome result ≡ run font.now (region_list store) }
{
    let base = store as usize;
    let offset = read::<u32>(font, base + 2)?;
    let list = base + offset as usize;
    let axis_count = read::<u16>(font, list)?;
    let region_count = read::<u16>(font, list + 2)?;
    Ok(RegionList {
        store,
        offset,
        axis_count,
        region_count,
    })
}

// The subtable of a row, which must be inside its item count (W-201).
fn item_data(font: &[u8], store: u32, outer: u32, inner: u16) -> Result<ItemData, Refusal>
    ensures { row_outcome inner result ≡ run font.now (row_at store outer inner) }
{
    let base = store as usize;
    let offset = read::<u32>(font, base + 8 + 4 * (outer as usize))?;
    let subtable = base + offset as usize;
    let region_index_count = read::<u16>(font, subtable + 4)?;
    let word_count = read::<u16>(font, subtable + 2)?;
    if word_count > region_index_count {
        return Err(Refusal::Arithmetic);
    }
    let item_count = read::<u16>(font, subtable)?;
    if inner >= item_count {
        return Err(Refusal::Index);
    }
    Ok(ItemData {
        store,
        offset,
        region_index_count,
        word_count,
    })
}

fn region_index(font: &[u8], at: usize, region_count: u16) -> Result<u16, Refusal>
    ensures { outcome result ≡ run font.now (region_index_at region_count at) }
{
    let region = read::<u16>(font, at)?;
    if region >= region_count {
        return Err(Refusal::Index);
    }
    Ok(region)
}

// Entry k of the row at a position.
fn delta_at(font: &[u8], row: usize, word_count: u16, k: u16) -> Result<i16, Refusal>
    requires { row < 2 ^ 40 }
    ensures { outcome result ≡ run font.now (delta_at word_count row k) }
{
    if k < word_count {
        return read(font, row + 2 * (k as usize));
    }
    let delta = read::<i8>(font, row + ((word_count as usize) + (k as usize)))?;
    Ok(i16::from(delta))
}

// The scalar of a region of the list at an offset from a store. A row's sum has the list's numbers at hand, and calls `region_scalar` itself.
pub fn scalar_in(
    font: &[u8],
    store: u32,
    offset: u32,
    axis_count: u16,
    region: u16,
    coords: &[i16],
) -> Result<Fixed, Refusal>
    ensures { outcome_fixed result ≡ run font.now (region_scalar coords.now axis_count (store + offset + 4 + 6 * (region * axis_count))) }
{
    let regions = (store as usize) + (offset as usize) + 4;
    region_scalar(font, regions, region, axis_count, coords)
}

// The sum over a row: of each region in turn its index, its scalar, its entry.
fn row_sum(font: &[u8], item: Item, inner: u16, coords: &[i16]) -> Result<Fixed, Refusal>
    ensures { outcome_fixed result ≡ run font.now (item_sum coords.now (item_of item inner)) }
{
    let list = item.list;
    let data = item.data;
    let axis_count = list.axis_count;
    let region_count = list.region_count;
    let count = data.region_index_count;
    let word_count = data.word_count;
    let regions = (list.store as usize) + (list.offset as usize) + 4;
    let indexes = (data.store as usize) + (data.offset as usize) + 6;
    let row = indexes
        + 2 * (count as usize)
        + (inner as usize) * ((count as usize) + (word_count as usize));
    let mut sum = Fixed::ZERO;
    for k in 0..count {
        let region = region_index(font, indexes + 2 * (k as usize), region_count)?;
        let scalar = region_scalar(font, regions, region, axis_count, coords)?;
        let delta = delta_at(font, row, word_count, k)?;
        sum = sum.add_product(scalar, delta);
    }
    Ok(sum)
}

// What the store has for a delta-set index: all that is read before the row, as one answer (DECISIONS 78).
fn item_at(font: &[u8], store: u32, outer: u32, inner: u16) -> Result<Item, Refusal>
    ensures { item_outcome inner result ≡ run font.now (item_at store outer inner) }
{
    if store == 0 {
        return Err(Refusal::Absent);
    }
    let count = read::<u16>(font, (store as usize) + 6)?;
    if outer >= count as u32 {
        return Err(Refusal::Index);
    }
    let list = region_list(font, store)?;
    let data = item_data(font, store, outer, inner)?;
    Ok(Item { list, data })
}

// Returns a delta from an item variation store. swash's outer index has 16 bits; an entry of a map can hold more, and the map cuts them.
pub fn item_delta(
    font: &[u8],
    store: u32,
    outer: u32,
    inner: u16,
    coords: &[i16],
) -> Result<Fixed, Refusal>
    ensures { outcome_fixed result ≡ item_delta font.now store outer inner coords.now }
{
    row_sum(font, item_at(font, store, outer, inner)?, inner, coords)
}
