// The meaning of a turn, section 6 of the manual: definitions and theorems. The code of a turn stands above.

#![tactic(auto)]
