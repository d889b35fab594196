// The worked cases of document 01 and of the requests.
//
// No function stands here: specs/Cases.antt says how the record of a case is made and what is asked of
// it, and proofs/WorkedCases.antt has the list. This crate stands above all the calls that the cases ask.
#![tactic(auto)]
