// That the definitions of a read-back say what the sentences of `dk_verify` say, and that these leave one outcome. There is no code here.
#![tactic(auto)]
