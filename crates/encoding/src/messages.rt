// The seven records, each with an impl of its own: it is the table of the members that Tink gives the record, with their
// numbers and types.
mod infos;
mod keys;
mod templates;
