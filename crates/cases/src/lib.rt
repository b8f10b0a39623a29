// Cases worked outside, as numbers: no call is named here.

#![tactic(auto)]
