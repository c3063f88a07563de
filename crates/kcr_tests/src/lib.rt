//! Trials of what no stream of requests shows: files whose device fails, databases that are none of the register's,
//! invalid rows, and a reader or a writer that fails. There is nothing here but tests.
#![tactic(auto)]

#[cfg(test)]
mod asserts;
#[cfg(test)]
mod invalid_rows;
#[cfg(test)]
mod reports;
#[cfg(test)]
mod stops;
#[cfg(test)]
mod streams;
