// What is claimed of the public calls, and the worked cases of the document: definitions and theorems, and no code.
#![tactic(auto)]
