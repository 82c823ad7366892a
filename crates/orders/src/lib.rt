// No code: the events that have to be done together with one, and the order in which they are done, by a plan and
// fates.
#![tactic(auto)]
