// An axis by value, and a value of it normalised.
ghost use Rattle.std.specs.Prelude.{◌≡◌, cond};
ghost use Rattle.numbers.specs.Numbers.{negated};
ghost use Rattle.numbers.specs.Floats.{to_float};
ghost use Rattle.readers.specs.Answers.{outcome_fixed, outcome_f2_dot14};
ghost use Rattle.opentype.specs.Axis.{hidden, clamped, fraction, from_default, held, normalized_coord};
ghost use Rattle.axes.specs.AxisAnswers.{axis_of};

use crate::avar::adjust_axis;
use numbers::{F2Dot14, Fixed};
use readers::Refusal;

// Axis of variation in a variable font.
#[derive(Clone, Copy)]
pub struct VarAxis {
    pub index: u16,
    pub tag: u32,
    pub name_id: u16,
    pub flags: u16,
    pub min: Fixed,
    pub default: Fixed,
    pub max: Fixed,
}

impl VarAxis {
    // What stands for an axis that cannot be read.
    pub const NONE: VarAxis = VarAxis {
        index: 0,
        tag: 0,
        name_id: 0,
        flags: 0,
        min: Fixed::ZERO,
        default: Fixed::ZERO,
        max: Fixed::ZERO,
    };

    // Whether the axis should be hidden in a user interface.
    pub fn is_hidden(self) -> bool
        ensures { result ≡ hidden (axis_of self) }
    {
        self.flags % 2 == 1
    }

    pub fn min_value(self) -> f32
        ensures { result ≡ to_float self.min.0 }
    {
        self.min.into()
    }

    pub fn default_value(self) -> f32
        ensures { result ≡ to_float self.default.0 }
    {
        self.default.into()
    }

    pub fn max_value(self) -> f32
        ensures { result ≡ to_float self.max.0 }
    {
        self.max.into()
    }

    // The value held to min..max. No `Ord::clamp`: a font's min may lie above its max, and then min is tested first.
    fn clamp(self, value: Fixed) -> Fixed
        ensures { result.0 ≡ clamped (axis_of self) value.0 }
    {
        if value < self.min {
            self.min
        } else if self.max < value {
            self.max
        } else {
            value
        }
    }

    // How far the value lies from default, as a part of the way to min or max.
    fn from_default(self, value: Fixed) -> Result<Fixed, Refusal>
        ensures { outcome_fixed result ≡ from_default (axis_of self) value.0 }
    {
        if value < self.default {
            fraction(true, self.default - value, self.default - self.min)
        } else if self.default < value {
            fraction(false, value - self.default, self.max - self.default)
        } else {
            Ok(Fixed::ZERO)
        }
    }

    // The normalised coordinate of a value, in 2.14; avar is an offset in the font, 0 for none.
    pub fn normalized_coord(self, value: Fixed, font: &[u8], avar: u32) -> Result<F2Dot14, Refusal>
        ensures { outcome_f2_dot14 result ≡ normalized_coord font.now avar (axis_of self) value.0 }
    {
        let part = self.from_default(self.clamp(value))?;
        Ok(adjust_axis(font, avar, self.index, hold(part)).to_f2dot14())
    }
}

// A difference over a difference, with the sign changed below default. Where min, default and max are in order, neither has a sign and the
// quotient is at most 1: then nothing is refused, and the division is all there is to do. The sign is asked for beside the differences, since it decides what is refused.
fn fraction(below: bool, numerator: Fixed, denominator: Fixed) -> Result<Fixed, Refusal>
    ensures { outcome_fixed result ≡ fraction below numerator.0 denominator.0 }
{
    if numerator < Fixed::ZERO || denominator < numerator {
        return signed_fraction(below, numerator, denominator);
    }
    Ok(signed(below, numerator / denominator))
}

// The same of any two differences; refused where swash's arithmetic stops.
// With either sign, the quotient's bits are 2^31 just where it is -2^31.
fn signed_fraction(below: bool, numerator: Fixed, denominator: Fixed) -> Result<Fixed, Refusal>
    ensures { outcome_fixed result ≡ fraction below numerator.0 denominator.0 }
{
    if numerator == Fixed::MIN || denominator == Fixed::MIN {
        return Err(Refusal::Arithmetic);
    }
    let quotient = numerator / denominator;
    if quotient == Fixed::MIN
        && (below || (numerator < Fixed::ZERO) != (denominator < Fixed::ZERO))
    {
        return Err(Refusal::Arithmetic);
    }
    Ok(signed(below, quotient))
}

fn signed(below: bool, quotient: Fixed) -> Fixed
    ensures { result.0 ≡ cond below (negated quotient.0) quotient.0 }
{
    if below { -quotient } else { quotient }
}

// Held to -1..1.
fn hold(value: Fixed) -> Fixed
    ensures { result.0 ≡ held value.0 }
{
    value.clamp(-Fixed::ONE, Fixed::ONE)
}
