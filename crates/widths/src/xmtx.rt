// hmtx and vmtx: a glyph's unvaried advance and side bearing, by one rule for both. The count of long records is hhea's or vhea's.
ghost use Rattle.std.specs.Prelude.{◌≡◌};
ghost use Rattle.readers.specs.Reading.{run};
ghost use Rattle.readers.specs.Answers.{outcome};
ghost use Rattle.opentype.specs.Xmtx.{advance_at, sb_at};

use readers::{Refusal, read};

// The advance of a glyph; past the long records, that of the last one.
pub fn advance(
    font: &[u8],
    xmtx: u32,
    long_metric_count: u16,
    glyph_id: u16,
) -> Result<u16, Refusal>
    ensures { outcome result ≡ run font.now (advance_at xmtx long_metric_count glyph_id) }
{
    if long_metric_count == 0 {
        return Err(Refusal::Arithmetic);
    }
    if xmtx == 0 {
        return Err(Refusal::Absent);
    }
    let record = glyph_id.min(long_metric_count - 1);
    read(font, (xmtx as usize) + 4 * (record as usize))
}

// The side bearing of a glyph; past the long records, from the bearings alone.
pub fn sb(font: &[u8], xmtx: u32, long_metric_count: u16, glyph_id: u16) -> Result<i16, Refusal>
    ensures { outcome result ≡ run font.now (sb_at xmtx long_metric_count glyph_id) }
{
    if long_metric_count == 0 {
        return Err(Refusal::Arithmetic);
    }
    if xmtx == 0 {
        return Err(Refusal::Absent);
    }
    if glyph_id < long_metric_count {
        return read(font, (xmtx as usize) + 4 * (glyph_id as usize) + 2);
    }
    let past = (glyph_id - long_metric_count) as usize;
    read(
        font,
        (xmtx as usize) + 4 * (long_metric_count as usize) + 2 * past,
    )
}
