// What the whole house promises: the theorems over opening and the calls. There is no code here.

#![tactic(auto)]
