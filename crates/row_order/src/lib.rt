// The order of the published rows: positions by a major and a minor column, and the key of a row by its days and its candidate. It has no
// code.
#![tactic(auto)]
