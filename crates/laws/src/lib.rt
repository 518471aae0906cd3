#![tactic(auto)]

// Facts that every layer above cites: tests, numbers from 1, lists, rearranged lists, tables. No code.
