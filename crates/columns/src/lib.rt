// Columns of numbers by position: definitions, and laws of a column that is filled place by place. It has no code.
#![tactic(auto)]
