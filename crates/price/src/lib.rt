// Ways of leaves and sequences of actions: what prices mean. No code.
#![tactic(auto)]
