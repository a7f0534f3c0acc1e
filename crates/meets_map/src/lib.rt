// That the definition of the map says what the sentences of `dk_map` say, that these leave one outcome, and what follows. There is no code here.
#![tactic(auto)]
