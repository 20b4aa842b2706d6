// The examples that are proved (J1 to J9 of the specification) and the wrong routers that no contract lets through
// (section Q), each as one table with one proof. No code: the examples are in specs/Examples.antt, the wrong
// routers, which nothing rests on, in proofs/WrongAnswers.antt, and the proofs in proofs/.
#![tactic(auto)]
