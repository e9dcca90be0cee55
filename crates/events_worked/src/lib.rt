// The worked table and what its rows tell, by computing: apart from `events`, of whose check it was five sixths. No code.

#![tactic(auto)]
