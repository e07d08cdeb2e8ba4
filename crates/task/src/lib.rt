// What a run works on, as values, and what it gives of each row: definitions, all in specs/.
#![tactic(auto)]
