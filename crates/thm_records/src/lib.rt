// Files that were written, read again: theorems about the definitions that the contracts of writing and reading cite. There is no code here.
#![tactic(auto)]
