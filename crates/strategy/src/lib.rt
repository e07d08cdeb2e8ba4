// Why no right strategy makes fewer probes than ours: definitions and theorems, all in specs/.
#![tactic(auto)]
