// Theorems of label runs, and no code: request 5's law of a glyph's own script (specs/OwnScripts).
#![tactic(auto)]
