// Definitions and theorems about any rule of steps; specs/ and proofs/ hold them, and there is no code here.

#![tactic(auto)]
