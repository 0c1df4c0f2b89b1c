// The rule of splitting: its definitions are in specs/, and proofs/ shows that plans by it starve nobody.
#![tactic(auto)]

pub mod computed;
