// Budgets seen from worked histories, by computing: apart from `history`, as the worked table is from `events`. No code.

#![tactic(auto)]
