/// The greatest number of bits: all sixteen. The least is 0, for none, and 1 in the mask of a wait.
pub const GREATEST_BITS: u32 = 65_535;
