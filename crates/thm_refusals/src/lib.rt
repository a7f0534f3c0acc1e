// No refusal without an example: for each number a small layout, store, image or overlay that gets it, as theorems over the sentences of the calls. There is
// no code here.
#![tactic(auto)]
