// Document 01 as definitions with their theorems; specs/ and proofs/ hold them, and there is no code here.

#![tactic(auto)]
