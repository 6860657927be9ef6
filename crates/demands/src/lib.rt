// No code: the theorems that a reader relies on stand in proofs/, each a short statement and a citation.
#![tactic(auto)]
