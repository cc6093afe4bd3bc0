// The index of a published list: definitions and laws. `list_publishing` has the functions that make it.
#![tactic(auto)]
