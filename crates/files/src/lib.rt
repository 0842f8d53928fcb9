// No code: run files as they are written. What is written for which graph, and what that is read as, stands in specs/, the proofs in proofs/.
