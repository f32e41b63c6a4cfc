// No code: which contents a line has had, moment by moment of a run, and what each event leaves alone.

#![tactic(auto)]
