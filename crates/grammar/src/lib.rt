// How a rule file is read: the grammar, what a file means, the reading with its refusals, and their theorems. No code.
#![tactic(auto)]
