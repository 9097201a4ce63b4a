// Pages of the shift book: the definitions of their text and of printing a recording, and the theorems; no code.
#![tactic(auto)]
