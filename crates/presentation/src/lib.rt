// The rules as a complete normalized presentation (section U of the specification): definitions in specs/, laws in
// proofs/. No function.
#![tactic(auto)]
