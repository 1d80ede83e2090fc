// The constants of `store::mvar_tags`. No proof can name a constant; what a function answers it can.
ghost use Rattle.std.specs.Prelude.{◌≡◌};
ghost use Rattle.examples.specs.Tags.{lettered};

use store::mvar_tags::*;

fn mvar_tags() -> [u32; 28]
    ensures { result ≡ lettered }
{
    [
        HASC, HDSC, HLGP, HCRS, HCRN, HCOF, HCLA, HCLD, VASC, VDSC, VLGP, VCRS, VCRN, VCOF, XHGT,
        CPHT, UNDO, UNDS, STRO, STRS, SBXO, SBYO, SBXS, SBYS, SPXO, SPYO, SPXS, SPYS,
    ]
}
