// What the numbers of a replay hold of the machine, and that a step on numbers is the machine's step. Nothing here runs, and nothing here is
// to be believed: a wrong step on numbers is an edit of `replay_control`, `replay_objects`, `replay_step` or `replay_engine`, a wrong machine one of
// `replay_machine`.
#![tactic(auto)]
