// No code: the laws of an accepted call (proofs/), about the machine's tests and what they show.
