// That the definitions of the store say what the sentences of `dk_offer` say, that these leave one outcome, and what follows. There is no code here.
#![tactic(auto)]
