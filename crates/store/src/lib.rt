// What a store means, and what each public call answers: specs/ and proofs/ only.
#![tactic(auto)]
