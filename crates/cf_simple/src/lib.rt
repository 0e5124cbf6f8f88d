//! Relations put more simply, as a person would write them: the definitions, and their law.
#![tactic(auto)]
