// How long a file of records can be: theorems about the definitions that the contracts of writing cite. There is no code here.
#![tactic(auto)]
