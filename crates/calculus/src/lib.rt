// No code: the definitions of the calculus stand in specs/.
#![tactic(auto)]
