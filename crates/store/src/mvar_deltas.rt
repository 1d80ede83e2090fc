// The deltas that shift a font's measures.

// Which deltas are asked for.
#[derive(Clone, Copy)]
pub enum Wanted {
    // Ascender and descender alone, as a synthesized advance takes them.
    Ascents,
    // Of all measures but the three vertical ones.
    AllButVertical,
    // Of those too.
    All,
}

// Deltas by their tags; 0.0 for one that is refused, and for one that was not asked for.
#[derive(Clone, Copy)]
pub struct MeasureDeltas {
    pub hasc: f32,
    pub hdsc: f32,
    pub hlgp: f32,
    pub cpht: f32,
    pub xhgt: f32,
    pub undo: f32,
    pub stro: f32,
    pub unds: f32,
    pub vasc: f32,
    pub vdsc: f32,
    pub vlgp: f32,
}

impl MeasureDeltas {
    pub(crate) const NONE: MeasureDeltas = MeasureDeltas {
        hasc: 0.0,
        hdsc: 0.0,
        hlgp: 0.0,
        cpht: 0.0,
        xhgt: 0.0,
        undo: 0.0,
        stro: 0.0,
        unds: 0.0,
        vasc: 0.0,
        vdsc: 0.0,
        vlgp: 0.0,
    };
}
