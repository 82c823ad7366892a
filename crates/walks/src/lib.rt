// Steps of the proofs that walk a function's code by hand: specs/Called.antt. No function.
#![tactic(auto)]
