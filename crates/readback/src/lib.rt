// What is written reads back: no code, only the proof that a listing of a table is read as that table.
#![tactic(auto)]
