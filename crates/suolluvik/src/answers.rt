// What C gets of an answer.
ghost use Rattle.std.specs.Prelude.{◌≡◌};
ghost use Rattle.readers.specs.Answers.{outcome};
ghost use Rattle.suolluvik.specs.Numbered.{numbered};

use readers::Refusal;

// The refusal's number, 0 for none; beside it the value, zero on a refusal.
pub fn answered<T: Copy>(answer: Result<T, Refusal>, zero: T, value: &mut T) -> u8
    ensures { (result, value.new) ≡ numbered zero (outcome answer) }
{
    match answer {
        Ok(x) => {
            *value = x;
            0
        }
        Err(refusal) => {
            *value = zero;
            refusal.into()
        }
    }
}
