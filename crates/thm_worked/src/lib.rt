// Two files from their bytes to what `layout` prints for them, as theorems about the definitions that the contracts cite: document 01's worked example,
// and the layout of March. There is no code here.
#![tactic(auto)]
