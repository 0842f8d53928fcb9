// No code: this crate is document 01 as definitions (specs/), and the laws about them (proofs/).
