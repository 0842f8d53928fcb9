// No code: the held run as a function over lists (specs/), and the theorems of the run (proofs/).
