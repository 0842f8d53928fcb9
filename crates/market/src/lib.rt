#![tactic(auto)]

// What a Matrix Market file is, which graph it holds, and the laws on both. No code.
