// That the definitions of Intel HEX and S-records say what the sentences of the calls say, that these leave one outcome, and what follows. There is no code
// here.
#![tactic(auto)]
