// The three demands, stated and proved of every call of `diminurel_handle` and of every list of calls. No code.
#![tactic(auto)]
