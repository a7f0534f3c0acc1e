// What each exported call does by the definitions, its answer told in numbers: the model that the sentences are held against. There is no code here.
#![tactic(auto)]
