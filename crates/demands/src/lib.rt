// The promises of the whole store, as theorems about the definitions that the public calls are proved to meet. There is no code.
#![tactic(auto)]
