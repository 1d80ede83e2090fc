// The scalar of a variation region.
ghost use Rattle.std.specs.Prelude.{◌≡◌, ◌+◌, ◌*◌, ◌^◌, ◌<◌};
ghost use Rattle.readers.specs.Reading.{run};
ghost use Rattle.readers.specs.Answers.{outcome_fixed};
ghost use Rattle.opentype.specs.Region.{coordinate, skipped, difference, tent, tent_at, region_scalar};
ghost use Rattle.store.specs.RegionAnswers.{triple_of, tent_of, axis_outcome};

use numbers::{F2Dot14, Fixed};
use readers::{FromBeData, Refusal};

// A missing coordinate is 0.
fn coordinate(coords: &[i16], axis: usize) -> F2Dot14
    ensures { result.0 ≡ coordinate coords.now axis }
{
    match coords.get(axis) {
        Some(&c) => F2Dot14(c),
        None => F2Dot14::ZERO,
    }
}

// a - b, by the 16.16 minus.
fn difference(a: F2Dot14, b: F2Dot14) -> Fixed
    ensures { result.0 ≡ difference a.0 b.0 }
{
    Fixed::from(a) - Fixed::from(b)
}

// Where one axis of a region begins, peaks and ends.
#[derive(Clone, Copy)]
struct Triple {
    start: F2Dot14,
    peak: F2Dot14,
    end: F2Dot14,
}

impl Triple {
    fn skipped(self) -> bool
        ensures { result ≡ skipped (triple_of self) }
    {
        let zero = F2Dot14::ZERO;
        self.peak < self.start
            || self.end < self.peak
            || self.peak == zero
            || (self.start < zero && zero < self.end)
    }

    // What it makes of a scalar; nothing where the coordinate is outside.
    fn tent(self, c: F2Dot14, scalar: Fixed) -> Option<Fixed>
        ensures { tent_of result ≡ tent (triple_of self) c.0 scalar.0 }
    {
        if self.skipped() {
            return Some(scalar);
        }
        if c < self.start || self.end < c {
            return None;
        }
        if c == self.peak {
            return Some(scalar);
        }
        if c < self.peak {
            return Some(scalar.scaled(
                difference(c, self.start),
                difference(self.peak, self.start),
            ));
        }
        Some(scalar.scaled(difference(self.end, c), difference(self.end, self.peak)))
    }
}

// The scalar after the triple at a position, whose six bytes are tested once.
fn axis_at(font: &[u8], at: usize, c: F2Dot14, scalar: Fixed) -> Result<Option<Fixed>, Refusal>
    requires { at < 2 ^ 48 }
    ensures { axis_outcome result ≡ run font.now (tent_at at c.0 scalar.0) }
{
    if font.len() < at + 6 {
        return Err(Refusal::Short);
    }
    let triple = Triple {
        start: F2Dot14::from_be_data(font, at),
        peak: F2Dot14::from_be_data(font, at + 2),
        end: F2Dot14::from_be_data(font, at + 4),
    };
    Ok(triple.tent(c, scalar))
}

// The scalar of a region of the list whose regions start at a position: outside one of its triples it is 0, and the rest is not read.
pub(crate) fn region_scalar(
    font: &[u8],
    regions: usize,
    region: u16,
    axis_count: u16,
    coords: &[i16],
) -> Result<Fixed, Refusal>
    requires { regions < 2 ^ 40 }
    ensures { outcome_fixed result ≡ run font.now (region_scalar coords.now axis_count (regions + 6 * (region * axis_count))) }
{
    let axes = axis_count as usize;
    let at = regions + 6 * ((region as usize) * axes);
    let mut scalar = Fixed::ONE;
    for axis in 0..axes {
        let Some(next) = axis_at(font, at + 6 * axis, coordinate(coords, axis), scalar)? else {
            return Ok(Fixed::ZERO);
        };
        scalar = next;
    }
    Ok(scalar)
}
