#![tactic(auto)]

// What a reader must believe of rules, cards, changes, firing orders and strata, and their theorems. No code.
