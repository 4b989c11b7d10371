// What stands behind each yes of the letter: the three demands as theorems over the contracts of every crate below, and the worthless versions that they
// shut out. Definitions (specs/) and theorems (proofs/) alone.
#![tactic(auto)]
