// MVAR: deltas of a font's measures, by tag.
ghost use Rattle.std.specs.Prelude.{◌≡◌, drop, IfOk};
ghost use Rattle.readers.specs.Reading.{run};
ghost use Rattle.readers.specs.Answers.{outcome, outcome_as, outcome_fixed};
ghost use Rattle.opentype.specs.Mvar.{header_at, find, mvar_delta, opened, no_mvar, opened_delta, opened_float};
ghost use Rattle.store.specs.MvarAnswers.{header_of, header_outcome, opened_of, lies_at};
ghost use Rattle.store.specs.MvarDeltasAnswers.{deltas_of, wanted_by};

use crate::item::item_delta;
use crate::keyed::Records;
use crate::metric::float_of;
use crate::mvar_deltas::{MeasureDeltas, Wanted};
use crate::mvar_tags::*;
use numbers::Fixed;
use readers::{Refusal, read};

// The numbers of the header.
#[derive(Clone, Copy)]
pub struct Header {
    pub rec_size: u16,
    pub rec_count: u16,
    pub store: u16,
}

fn header_at(data: &[u8]) -> Result<Header, Refusal>
    ensures { header_outcome result ≡ run «data».now header_at }
{
    let rec_size = read::<u16>(data, 6)?;
    let rec_count = read::<u16>(data, 8)?;
    let store = read::<u16>(data, 10)?;
    if rec_count == 0 || store == 0 {
        return Err(Refusal::Absent);
    }
    Ok(Header {
        rec_size,
        rec_count,
        store,
    })
}

// Where the record of a tag starts.
pub fn find(data: &[u8], rec_size: u16, rec_count: u16, tag: u32) -> Result<usize, Refusal>
    ensures { outcome result ≡ run «data».now (find (header_of rec_size rec_count 0) tag) }
{
    let records = Records {
        table: 0,
        head: 12,
        size: rec_size,
        count: rec_count,
    };
    records.find(data, tag)?.ok_or(Refusal::Tag)
}

// The part of the font from a position on; past the end it is empty.
fn part_from<'a>(font: &'a [u8], start: u32) -> &'a [u8]
    ensures part { result.now ≡ drop start font.now }
    ensures place { lies_at result font.entry start }
{
    let from = start as usize;
    if from > font.len() {
        return &font[..0];
    }
    &font[from..]
}

// The numbers of the MVAR at an offset of the font, or why it does not open.
pub fn mvar_header(font: &[u8], mvar: u32) -> Result<Header, Refusal>
    ensures { header_outcome result ≡ run (drop mvar font.now) header_at }
{
    header_at(part_from(font, mvar))
}

// The delta of a tag by the MVAR at an offset of the font. An offset of 0 is opened like any other: who has no MVAR tests for it.
pub fn mvar_delta<'a>(
    font: &'a [u8],
    mvar: u32,
    tag: u32,
    coords: &'a [i16],
) -> Result<Fixed, Refusal>
    ensures { outcome_fixed result ≡ mvar_delta font.now mvar tag coords.now }
{
    Mvar::new(font, mvar, coords)?.read_delta(tag)
}

// Metrics variation table, opened, with swash's fields: it keeps the part of the font and the coordinates together. Whatever its fields hold, each method has one answer.
#[derive(Clone, Copy)]
pub struct Mvar<'a> {
    pub data: &'a [u8],
    pub coords: &'a [i16],
    pub rec_size: u16,
    pub rec_count: u16,
    pub store: u16,
}

impl<'a> Mvar<'a> {
    // Opens the MVAR at an offset of the font.
    pub fn new(font: &'a [u8], mvar: u32, coords: &'a [i16]) -> Result<Mvar<'a>, Refusal>
        ensures { (outcome_as opened_of result ≡ opened font.now mvar coords.now) × IfOk result (λ m. lies_at m.«data» font.entry mvar × lies_at m.coords coords.entry 0) }
    {
        let data = part_from(font, mvar);
        let h = header_at(data)?;
        Ok(Mvar {
            data,
            coords,
            rec_size: h.rec_size,
            rec_count: h.rec_count,
            store: h.store,
        })
    }

    // What stands for an MVAR where opening refuses: empty and all zeros, so that every tag asked of it is refused by 4.
    pub fn none() -> Mvar<'a>
        ensures { opened_of result ≡ no_mvar }
    {
        Mvar {
            data: b"",
            coords: &[],
            rec_size: 0,
            rec_count: 0,
            store: 0,
        }
    }

    // The delta of a tag, in 16.16.
    pub fn read_delta(self, tag: u32) -> Result<Fixed, Refusal>
        ensures { outcome_fixed result ≡ opened_delta (opened_of self.entry) tag }
    {
        let at = find(self.data, self.rec_size, self.rec_count, tag)?;
        let inner = read::<u16>(self.data, at + 4)?;
        let outer = read::<u16>(self.data, at + 6)?;
        item_delta(
            self.data,
            self.store as u32,
            outer as u32,
            inner,
            self.coords,
        )
    }

    // The same as a float: 0.0 on any refusal.
    pub fn delta(self, tag: u32) -> f32
        ensures { result ≡ opened_float (opened_of self.entry) tag }
    {
        float_of(self.read_delta(tag))
    }

    // The deltas that shift a font's measures.
    pub fn deltas(self, wanted: Wanted) -> MeasureDeltas
        ensures { deltas_of result ≡ wanted_by wanted (opened_float (opened_of self.entry)) }
    {
        let mut deltas = MeasureDeltas {
            hasc: self.delta(HASC),
            hdsc: self.delta(HDSC),
            ..MeasureDeltas::NONE
        };
        if let Wanted::AllButVertical | Wanted::All = wanted {
            deltas.hlgp = self.delta(HLGP);
            deltas.cpht = self.delta(CPHT);
            deltas.xhgt = self.delta(XHGT);
            deltas.undo = self.delta(UNDO);
            deltas.stro = self.delta(STRO);
            deltas.unds = self.delta(UNDS);
        }
        if let Wanted::All = wanted {
            deltas.vasc = self.delta(VASC);
            deltas.vdsc = self.delta(VDSC);
            deltas.vlgp = self.delta(VLGP);
        }
        deltas
    }
}
