// What follows from the sentences of `dk_build` alone: that they leave one outcome, its edges, the image, the order of lines. There is no code here.
#![tactic(auto)]
