// What a request asks, and what is answered to it: definitions and laws.

#![tactic(auto)]
