// That the definitions of a layout file say what the sentences of `dk_form` say, that these leave one outcome, and what follows. There is no code here.
#![tactic(auto)]
