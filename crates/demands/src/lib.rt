// The demands on the engine, as theorems over its meaning and over its own results. There is no code here.
#![tactic(auto)]
