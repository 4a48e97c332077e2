// Examples of the rules of `ciphers` and `rows`, as tests. The contracts say more; these are what a reader can run.
// Expected values come from the standards and from another implementation of AES and SIV (Python's `cryptography`).
#![tactic(auto)]

#[cfg(test)]
mod aeads;
#[cfg(test)]
mod counters;
#[cfg(test)]
mod draws;
#[cfg(test)]
mod faults;
#[cfg(test)]
mod hex_rows;
