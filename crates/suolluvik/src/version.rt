// Which functions, refusals and sizes of records the library has.
ghost use Rattle.std.specs.Prelude.{◌≡◌};

// It rises by one with whatever is added; nothing is taken away. Header and wrapper say the same number.
#[unsafe(no_mangle)]
pub extern "C" fn suolluvik_version() -> u32
    ensures { result ≡ 3 }
{
    3
}
