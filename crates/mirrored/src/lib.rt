// What placing and sorting make of a file's entries is the definition's graph, and that graph is valid and symmetric. No code.
#![tactic(auto)]
