// The exports of `suolluvik::measures`, for C: each calls it and has its contract.
ghost use Rattle.std.specs.Prelude.{◌≡◌, false};
ghost use Rattle.readers.specs.Outcome.{number};
ghost use Rattle.metrics.specs.Measures.{materialized_metrics, linear_scaled, scaled_metrics};
ghost use Rattle.suolluvik.specs.Measures.{size_in, changed};

#[unsafe(no_mangle)]
pub extern "C" fn suolluvik_materialize_metrics<'a>(
    font: &'a [u8],
    mvar: u32,
    coords: &'a [i16],
    has_vertical_metrics: bool,
    measures: &mut [f32],
) -> u8
    ensures number { result ≡ number (size_in measures.old) }
    ensures list { measures.new ≡ changed (materialized_metrics font.now mvar coords.now) 0 has_vertical_metrics measures.old }
{
    suolluvik::measures::suolluvik_materialize_metrics(
        font,
        mvar,
        coords,
        has_vertical_metrics,
        measures,
    )
}

#[unsafe(no_mangle)]
pub extern "C" fn suolluvik_scale_metrics(units_per_em: u16, ppem: f32, measures: &mut [f32]) -> u8
    ensures number { result ≡ number (size_in measures.old) }
    ensures list { measures.new ≡ changed (scaled_metrics ppem) units_per_em false measures.old }
{
    suolluvik::measures::suolluvik_scale_metrics(units_per_em, ppem, measures)
}

#[unsafe(no_mangle)]
pub extern "C" fn suolluvik_linear_scale_metrics(scale: f32, measures: &mut [f32]) -> u8
    ensures number { result ≡ number (size_in measures.old) }
    ensures list { measures.new ≡ changed (linear_scaled scale) 0 false measures.old }
{
    suolluvik::measures::suolluvik_linear_scale_metrics(scale, measures)
}
