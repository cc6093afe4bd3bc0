// A sheet of 64 days: a base day, and a mask whose bit i is the base day + i. The days that it ticks stand in specs/; `mask_days` has the
// function that puts them into a list.
#![tactic(auto)]
