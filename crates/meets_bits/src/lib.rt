// That the definitions of hex, of parts of an image and of blocks say what the sentences of the calls say, and that these leave one outcome. There is no code
// here.
#![tactic(auto)]
