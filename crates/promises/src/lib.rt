// No code: the theorems of the held run. What they say stands in specs/, the proofs in proofs/.
