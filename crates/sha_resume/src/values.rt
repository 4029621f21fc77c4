// The values that a chain starts from and gives.

ghost use Rattle.std.specs.Prelude.{◌≡◌};
ghost use Rattle.store_model.specs.Hash.{initial_state};

/// The state after a whole number of blocks of a message: the eight words H0 to H7 of section 6.2.
#[derive(Clone, Copy, Debug, PartialEq, Eq)]
pub struct Mark {
    pub words: [u32; 8],
}

/// A message's digest: the words of the last state, each high byte first.
#[derive(Clone, Copy, Debug, PartialEq, Eq)]
pub struct Digest {
    pub bytes: [u8; 32],
}

/// The initial state, before any block (section 5.3.3).
pub const START: Mark = Mark {
    words: [
        0x6a09_e667,
        0xbb67_ae85,
        0x3c6e_f372,
        0xa54f_f53a,
        0x510e_527f,
        0x9b05_688c,
        0x1f83_d9ab,
        0x5be0_cd19,
    ],
};

impl Default for Mark {
    ghost is_default = { λ mark. mark.words ≡ initial_state };

    fn default() -> Mark {
        START
    }
}
