// The starred examples of document 01, and examples of document 02's replay: specs/ and proofs/ only.
#![tactic(auto)]
