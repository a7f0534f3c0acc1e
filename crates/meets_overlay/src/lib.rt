// That the definitions of the bench say what the sentences of its calls say, and that these leave one outcome. There is no code here.
#![tactic(auto)]
