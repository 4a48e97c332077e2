// Tink's keysets: the registry of what makes their keys, a manager that holds one and edits it, what a valid keyset is, and
// what may be saved. Nothing here allocates, no public call asks anything of its caller, and a refused call changes nothing.
#![tactic(auto)]

pub mod check;
pub mod claims;
pub mod manager;
pub mod registry;
pub mod validation;
