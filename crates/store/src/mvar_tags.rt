// Tags for metrics from the MVAR table, as the four letters make a 32-bit number. A constant can't call `from_be_bytes`, so the letters stand beside it.

// Horizontal ascender.
pub const HASC: u32 = 0x6861_7363; // hasc

// Horizontal descender.
pub const HDSC: u32 = 0x6864_7363; // hdsc

// Horizontal line gap.
pub const HLGP: u32 = 0x686c_6770; // hlgp

// Horizontal caret rise.
pub const HCRS: u32 = 0x6863_7273; // hcrs

// Horizontal caret run.
pub const HCRN: u32 = 0x6863_726e; // hcrn

// Horizontal caret offset.
pub const HCOF: u32 = 0x6863_6f66; // hcof

// Horizontal clipping ascent.
pub const HCLA: u32 = 0x6863_6c61; // hcla

// Horizontal clipping descent.
pub const HCLD: u32 = 0x6863_6c64; // hcld

// Vertical ascender.
pub const VASC: u32 = 0x7661_7363; // vasc

// Vertical descender.
pub const VDSC: u32 = 0x7664_7363; // vdsc

// Vertical line gap.
pub const VLGP: u32 = 0x766c_6770; // vlgp

// Vertical caret rise.
pub const VCRS: u32 = 0x7663_7273; // vcrs

// Vertical caret run.
pub const VCRN: u32 = 0x7663_726e; // vcrn

// Vertical caret offset.
pub const VCOF: u32 = 0x7663_6f66; // vcof

// X-height.
pub const XHGT: u32 = 0x7868_6774; // xhgt

// Cap height.
pub const CPHT: u32 = 0x6370_6874; // cpht

// Underline offset.
pub const UNDO: u32 = 0x756e_646f; // undo

// Underline size.
pub const UNDS: u32 = 0x756e_6473; // unds

// Strikeout offset.
pub const STRO: u32 = 0x7374_726f; // stro

// Strikeout size.
pub const STRS: u32 = 0x7374_7273; // strs

// Subscript x-offset.
pub const SBXO: u32 = 0x7362_786f; // sbxo

// Subscript y-offset.
pub const SBYO: u32 = 0x7362_796f; // sbyo

// Subscript x-size.
pub const SBXS: u32 = 0x7362_7873; // sbxs

// Subscript y-size.
pub const SBYS: u32 = 0x7362_7973; // sbys

// Superscript x-offset.
pub const SPXO: u32 = 0x7370_786f; // spxo

// Superscript y-offset.
pub const SPYO: u32 = 0x7370_796f; // spyo

// Superscript x-size.
pub const SPXS: u32 = 0x7370_7873; // spxs

// Superscript y-size.
pub const SPYS: u32 = 0x7370_7973; // spys
