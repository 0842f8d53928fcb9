// No code: the general law of a held run, over any machine. What a run is stands in specs/, the laws in proofs/.
