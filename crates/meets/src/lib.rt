// Theorems over the words that all sentences are made of, over banks and over blocks. There is no code here.
#![tactic(auto)]
