// Key managers and the registry of them: a value over a bank of managers of one type that is lent to it.
pub mod calls;
pub mod chip_public;
pub mod cmac128;
pub mod key_manager;

// A place of a bank: a manager, and whether it is registered. The manager stands there either way, so this is no `Option`;
// an enum of the two states would have to move it from one to the other behind a `&mut`.
#[derive(Drop)]
pub struct Place<M> {
    manager: M,
    registered: bool,
}

// Managers are registered by their place in the bank, so there is room for all of them.
// It has no model: a model's value cannot use the members of a bound, and what the managers mean is said by theirs.
#[derive(Drop)]
pub struct Registry<'a, M> {
    bank: &'a mut [Place<M>],
}
