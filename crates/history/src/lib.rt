// Any list of calls on a stream, and what they come to: definitions (specs/) and laws (proofs/) alone.
#![tactic(auto)]
