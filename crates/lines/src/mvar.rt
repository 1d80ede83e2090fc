// The delta of a font's measure, by MVAR, with the scalars of the MVAR's own store in a list. All positions count from the MVAR's start, also where the list is filled.
ghost use Rattle.std.specs.Prelude.{◌≡◌};
ghost use Rattle.readers.specs.Answers.{outcome, outcome_fixed};
ghost use Rattle.opentype.specs.Lines.{mvar_store, mvar_delta_with};

use crate::item::item_delta_with;
use numbers::Fixed;
use readers::{Refusal, read};
use store::mvar::{find, mvar_header};

// The offset of the store from the start of the MVAR at an offset of the font.
pub fn mvar_store(font: &[u8], mvar: u32) -> Result<u16, Refusal>
    ensures { outcome result ≡ mvar_store font.now mvar }
{
    Ok(mvar_header(font, mvar)?.store)
}

// The delta of a tag by the MVAR at an offset of the font.
pub fn mvar_delta_with(font: &[u8], mvar: u32, tag: u32, scalars: &[i32]) -> Result<Fixed, Refusal>
    ensures { outcome_fixed result ≡ mvar_delta_with font.now mvar tag scalars.now }
{
    let start = mvar as usize;
    // the part by a test of its own: `get` of a range is slower (measured: three instructions a tag)
    if start > font.len() {
        return Err(Refusal::Short);
    }
    let header = mvar_header(font, mvar)?;
    let part = &font[start..];
    let at = find(part, header.rec_size, header.rec_count, tag)?;
    let inner = read::<u16>(part, at + 4)?;
    let outer = read::<u16>(part, at + 6)?;
    item_delta_with(part, header.store as u32, outer as u32, inner, scalars)
}
