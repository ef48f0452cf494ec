// What is claimed of a whole list of calls on a book: specs/ has the plain reading and the claims, proofs/ their proofs. No code.

#![tactic(auto)]
