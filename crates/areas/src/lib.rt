// Any list of calls on a stream whose state is kept in an area of bytes, and what they come to: definitions (specs/) and laws (proofs/) alone.
#![tactic(auto)]
