// The exploration: nodes, keys, dominance, the search itself. Definitions and their laws; no code.
#![tactic(auto)]
