// What a font has for vertical type.
ghost use Rattle.std.specs.Prelude.{◌≡◌};
ghost use Rattle.metrics.specs.Vertical.{has_vertical_metrics, synthesized_from, materialized_vertical};
ghost use Rattle.metrics.specs.Structs.{vertical_of};

use crate::deltas::opened_deltas;
use store::mvar_deltas::Wanted;

// Of the tables, the offsets and counts are kept for whoever reads a glyph's unvaried numbers; VVAR's alone is used here.
#[derive(Clone, Copy)]
pub enum Vertical {
    VmtxGlyf {
        loca_fmt: u8,
        long_count: u16,
        vmtx: u32,
        vvar: u32,
        glyf: u32,
        loca: u32,
    },
    VmtxVorg {
        long_count: u16,
        vmtx: u32,
        vvar: u32,
        vorg: u32,
    },
    // The same advance height and vertical origin for all glyphs, in font units.
    Synthesized {
        mvar: u32,
        advance: f32,
        origin: f32,
    },
}

impl Vertical {
    // What swash synthesizes from a font's measures, of which the descent is minus OpenType's descender, and the offset of its MVAR, 0 for none.
    pub fn synthesize(mvar: u32, ascent: f32, descent: f32) -> Vertical
        ensures { vertical_of result ≡ synthesized_from mvar ascent descent }
    {
        Vertical::Synthesized {
            mvar,
            advance: ascent + descent,
            origin: ascent,
        }
    }

    // Whether the font itself has vertical metrics for its glyphs.
    pub(crate) fn has_vertical_metrics(self) -> bool
        ensures { result ≡ has_vertical_metrics (vertical_of self) }
    {
        !matches!(self, Vertical::Synthesized { .. })
    }

    // Vertical metrics at some coordinates: the synthesized case is shifted by MVAR. The advance's two deltas are added to each other first, as in swash.
    pub(crate) fn materialize<'a>(self, font: &'a [u8], coords: &'a [i16]) -> Vertical
        ensures { vertical_of result ≡ materialized_vertical font.now coords.now (vertical_of self) }
    {
        let Vertical::Synthesized {
            mvar,
            advance,
            origin,
        } = self
        else {
            return self;
        };
        if mvar == 0 || coords.is_empty() {
            return self;
        }
        let Ok(d) = opened_deltas(font, mvar, coords, Wanted::Ascents) else {
            return self;
        };
        Vertical::Synthesized {
            mvar,
            advance: advance + (d.hasc + d.hdsc),
            origin: origin + d.hasc,
        }
    }
}
