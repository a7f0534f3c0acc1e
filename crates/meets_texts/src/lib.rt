// That what the programs print by the definitions is what the sentences say, and that these leave one text. There is no code here.
#![tactic(auto)]
