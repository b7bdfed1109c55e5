// The theory of push-down reachability over any product of a program and a property: definitions and theorems, and no code.
#![tactic(auto)]
