// No code: the theorems about the definitions of `scheduler`, in proofs/.
#![tactic(auto)]
