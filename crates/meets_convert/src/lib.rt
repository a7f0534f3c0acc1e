// That the definitions of the conversions say what their sentences say, that these leave one outcome, and what follows. There is no code here.
#![tactic(auto)]
