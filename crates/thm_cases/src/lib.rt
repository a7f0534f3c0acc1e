// Document 01's worked cases, as theorems about the definitions that the contracts cite. There is no code here: specs/Table.antt has
// the table and its one statement.
#![tactic(auto)]
