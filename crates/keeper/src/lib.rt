// The schema keeper's calls. Each is lent all three stores, asks nothing of its caller, and its contract equates the answer and every final byte with a
// definition in specs/.
// Three stores, and no struct of them: C lends them one by one. A call gives an Answer and no Result: C is given its three numbers.
#![tactic(auto)]

pub mod audit;
pub mod check;
pub mod depth;
pub mod load;
pub mod write;
