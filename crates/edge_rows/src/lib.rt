// RULES, Cases at the edges: those marked * are proved of the definitions. The rows stand in specs/, and their one list in specs/Rows.antt; there is no code.
#![tactic(auto)]
