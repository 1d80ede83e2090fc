// The exports of `suolluvik::version`, for C: each calls it and has its contract.
ghost use Rattle.std.specs.Prelude.{◌≡◌};

#[unsafe(no_mangle)]
pub extern "C" fn suolluvik_version() -> u32
    ensures { result ≡ 3 }
{
    suolluvik::version::suolluvik_version()
}
