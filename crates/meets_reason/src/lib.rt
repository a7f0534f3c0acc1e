// That the definition of a reason says what the sentences of `dk_record_reason` say, that these leave one outcome, and what follows. There is no code here.
#![tactic(auto)]
