// VORG: the y coordinate of a glyph's vertical origin.
ghost use Rattle.std.specs.Prelude.{◌≡◌};
ghost use Rattle.readers.specs.Reading.{run};
ghost use Rattle.readers.specs.Answers.{outcome};
ghost use Rattle.opentype.specs.Vorg.{origin_at};

use readers::{Refusal, read};
use store::keyed::Records;

// The origin of a glyph by the VORG at an offset; of a glyph that it has not, the default.
pub fn origin(font: &[u8], vorg: u32, glyph_id: u16) -> Result<i16, Refusal>
    ensures { outcome result ≡ run font.now (origin_at vorg glyph_id) }
{
    if vorg == 0 {
        return Err(Refusal::Absent);
    }
    let default = read::<i16>(font, vorg as usize + 4)?;
    let records = Records {
        table: vorg,
        head: 8,
        size: 4,
        count: read(font, vorg as usize + 6)?,
    };
    match records.find(font, glyph_id)? {
        Some(at) => read(font, at + 2),
        None => Ok(default),
    }
}
