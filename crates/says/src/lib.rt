// The specification: what each exported call says, in plain facts and in the numerals of the documents. The contract of each exported function is its
// sentence here. There is no code here, no theorem and no law; specs/Lib.antt has the files in the order in which to read them.
#![tactic(auto)]
