// That what the programs over layout files print is what the sentences of their texts say, and that these leave one text. There is no code here.
#![tactic(auto)]
