//! Lines from readers to writers, and the words and numbers in them.
mod lengths;
mod pieces;
mod serving;
mod splitting;
mod watching;
