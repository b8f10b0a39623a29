// The planner's rule: definitions and laws.

#![tactic(auto)]

// The best split so far and its cost; the split 0 is none.
// No Option: `better` compares costs, and with none as a split of its own each case would stand twice; so in the code (plan/src/choose.rt).
#[derive(Clone, Copy)]
pub struct Best {
    pub split: usize,
    pub cost: usize,
}
