// The tests by subject, and the helpers that several of them share.

mod accounts;
mod cutters;
mod pair;
mod scripts;
