// What the evaluator keeps between calls: the set of slots of each variable; the nodes whose sets are known, with the rounds made for each; and,
// for each variable, the nodes in which it is free. The nodes are sets too, so that a variable that moves costs one operation on sets, however
// many nodes there are.
#![tactic(auto)]

mod memo;

pub use memo::{Memo, Variable};
