#![tactic(auto)]

// What the engine promises of its entry points: demand 3, a day of calls, and the lettered cases of document 01. No code.
