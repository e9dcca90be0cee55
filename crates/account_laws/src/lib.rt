// What keeps an account sound, rule by rule. No code.

#![tactic(auto)]
