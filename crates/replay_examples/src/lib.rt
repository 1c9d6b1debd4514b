// That the long replays of the examples come to what their rows say: no code. The tables stand in `replay_theory`; computing all of them there would be paid again by every wrong definition that is tried.
#![tactic(auto)]
