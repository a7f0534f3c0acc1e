// That what the map's program prints is what the sentences of its text say, and that these leave one text. There is no code here.
#![tactic(auto)]
