// That the definitions of the paged device's profile say what the sentences of its calls say, that these leave one outcome, and what follows. There is no
// code here.
#![tactic(auto)]
