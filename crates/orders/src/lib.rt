// Orders by keys, and lists sorted by an order: definitions and laws.
#![tactic(auto)]
