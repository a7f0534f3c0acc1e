// What a conversion between the forms of a layout file does to the build's answer, as theorems about the definitions that the contracts cite
// (document 02, Tickets 7 and 13). There is no code here: specs/ has the statements.
#![tactic(auto)]
