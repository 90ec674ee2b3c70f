//! What coding finds on its way, whichever coder computes it, and the lemmas on it: the values of the last column, of the erased nodes and
//! of a lost node's column. No code.
#![tactic(auto)]
