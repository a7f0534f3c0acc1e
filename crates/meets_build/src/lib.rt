// That the definitions of a build say what the sentences of `dk_build` say, and what comes of it. There is no code here.
#![tactic(auto)]
