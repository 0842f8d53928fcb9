#![tactic(auto)]

// No code: which files are Matrix Market files, said without a reader, and that the definition of reading agrees. Definitions stand in specs/, theorems in proofs/.
