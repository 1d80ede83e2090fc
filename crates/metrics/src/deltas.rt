// The deltas that shift measures.
ghost use Rattle.std.specs.Prelude.{◌≡◌};
ghost use Rattle.readers.specs.Answers.{outcome_as};
ghost use Rattle.readers.specs.Outcome.{value, onward};
ghost use Rattle.opentype.specs.Mvar.{opened, opened_float};
ghost use Rattle.store.specs.MvarDeltasAnswers.{deltas_of, wanted_by};

use readers::Refusal;
use store::mvar::Mvar;
use store::mvar_deltas::{MeasureDeltas, Wanted};

// Opens the MVAR at an offset of the font, once, and asks it for the deltas that are wanted; or why it does not open.
pub(crate) fn opened_deltas<'a>(
    font: &'a [u8],
    mvar: u32,
    coords: &'a [i16],
    wanted: Wanted,
) -> Result<MeasureDeltas, Refusal>
    ensures { outcome_as deltas_of result ≡ onward (opened font.now mvar coords.now) (λ m. value (wanted_by wanted (opened_float m))) }
{
    Ok(Mvar::new(font, mvar, coords)?.deltas(wanted))
}
