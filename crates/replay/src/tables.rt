// Cases of hmtx, vmtx and VORG, and of a glyph's measures from one call.
use crate::glyphs::{Glyph, level, ordinate, synthesized};
use crate::parse::{Rooms, bits, bytes, float, index, list, natural};
use crate::print::Output;
use metrics::glyph::GlyphMetrics;
use metrics::vertical::Vertical;
use widths::adjusted::{adjusted_advance, adjusted_sb};
use widths::{glyph, vorg, xmtx};

pub(crate) fn answer(words: &[&[u8]], rooms: &mut Rooms, out: &mut Output) -> Option<()> {
    match words {
        [b"vorg_origin", words @ ..] => put_vorg(words, rooms, out),
        [name, font, xmtx, long_metric_count, id] => {
            let (xmtx, count, id) = (natural(xmtx)?, index(long_metric_count)?, index(id)?);
            put_unvaried(name, bytes(font, &mut rooms.font)?, xmtx, count, id, out)
        }
        [name, font, tables, id, coords, scale] => {
            let scale = float(scale)?;
            put_measure(
                name,
                &Glyph::read(font, id, coords, rooms)?,
                tables,
                scale,
                out,
            )
        }
        [b"read_vertical_origin", words @ ..] => put_origin(words, rooms, out),
        [name, font, xmtx, long_metric_count, xvar, id, coords, scale] => {
            let table = Table::read(xmtx, long_metric_count, xvar, scale)?;
            put_adjusted(name, table, &Glyph::read(font, id, coords, rooms)?, out)
        }
        _ => None,
    }
}

fn put_vorg(words: &[&[u8]], rooms: &mut Rooms, out: &mut Output) -> Option<()> {
    let [font, vorg, id] = words else {
        return None;
    };
    let (vorg, id) = (natural(vorg)?, index(id)?);
    out.put(vorg::origin(bytes(font, &mut rooms.font)?, vorg, id));
    Some(())
}

fn put_unvaried(
    name: &[u8],
    font: &[u8],
    xmtx: u32,
    long_metric_count: u16,
    id: u16,
    out: &mut Output,
) -> Option<()> {
    match name {
        b"xmtx_advance" => out.put(xmtx::advance(font, xmtx, long_metric_count, id)),
        b"xmtx_sb" => out.put(xmtx::sb(font, xmtx, long_metric_count, id)),
        _ => return None,
    }
    Some(())
}

fn put_origin(words: &[&[u8]], rooms: &mut Rooms, out: &mut Output) -> Option<()> {
    let [font, tables, id, coords, y_max, units_per_em, scale] = words else {
        return None;
    };
    let unvaried = with_vmtx(tables, index(units_per_em)?)?;
    let (y_max, scale) = (ordinate(y_max)?, float(scale)?);
    let of = Glyph::read(font, id, coords, rooms)?;
    let m = of.scaled(unvaried, scale);
    out.put(glyph::vertical_origin(m, of.font, of.id, &of.coords, y_max));
    Some(())
}

fn put_measure(name: &[u8], of: &Glyph, tables: &[u8], scale: f32, out: &mut Output) -> Option<()> {
    let unvaried = match name {
        b"read_advance_width" | b"read_lsb" => with_hmtx(tables)?,
        _ => with_vmtx(tables, 0)?,
    };
    let m = of.scaled(unvaried, scale);
    let Glyph { font, id, coords } = of;
    out.put(match name {
        b"read_advance_width" => glyph::advance_width(m, font, *id, coords),
        b"read_lsb" => glyph::lsb(m, font, *id, coords),
        b"read_advance_height" => glyph::advance_height(m, font, *id, coords),
        b"read_tsb" => glyph::tsb(m, font, *id, coords),
        _ => return None,
    });
    Some(())
}

// hmtx with HVAR, or vmtx with VVAR, and a scale.
#[derive(Clone, Copy)]
struct Table {
    xmtx: u32,
    long_metric_count: u16,
    xvar: u32,
    scale: f32,
}

impl Table {
    fn read(xmtx: &[u8], long_metric_count: &[u8], xvar: &[u8], scale: &[u8]) -> Option<Table> {
        Some(Table {
            xmtx: natural(xmtx)?,
            long_metric_count: index(long_metric_count)?,
            xvar: natural(xvar)?,
            scale: float(scale)?,
        })
    }
}

fn put_adjusted(name: &[u8], table: Table, of: &Glyph, out: &mut Output) -> Option<()> {
    let Table {
        xmtx,
        long_metric_count,
        xvar,
        scale,
    } = table;
    let Glyph { font, id, coords } = of;
    out.put(match name {
        b"adjusted_advance" => {
            adjusted_advance(font, xmtx, long_metric_count, xvar, *id, coords, scale)
        }
        b"adjusted_sb" => adjusted_sb(font, xmtx, long_metric_count, xvar, *id, coords, scale),
        _ => return None,
    });
    Some(())
}

// hmtx, the count of long records, HVAR.
fn with_hmtx(text: &[u8]) -> Option<GlyphMetrics> {
    let words = list(text, bits)?;
    let [hmtx, long_count, hvar] = words.as_slice() else {
        return None;
    };
    Some(GlyphMetrics {
        hmtx: *hmtx,
        hmtx_count: u16::try_from(*long_count).ok()?,
        ..level(0, *hvar)
    })
}

// 0 for glyf, the count, vmtx and VVAR; 1 for VORG, the same and VORG; or 2, MVAR, advance and origin.
fn with_vmtx(text: &[u8], units_per_em: u16) -> Option<GlyphMetrics> {
    let words = list(text, bits)?;
    let vertical = match words.as_slice() {
        [0, long_count, vmtx, vvar] => Vertical::VmtxGlyf {
            loca_fmt: 0,
            long_count: u16::try_from(*long_count).ok()?,
            vmtx: *vmtx,
            vvar: *vvar,
            glyf: 0,
            loca: 0,
        },
        [1, long_count, vmtx, vvar, vorg] => Vertical::VmtxVorg {
            long_count: u16::try_from(*long_count).ok()?,
            vmtx: *vmtx,
            vvar: *vvar,
            vorg: *vorg,
        },
        [2, mvar, advance, origin] => synthesized(*mvar, *advance, *origin),
        _ => return None,
    };
    Some(GlyphMetrics {
        vertical,
        ..level(units_per_em, 0)
    })
}
