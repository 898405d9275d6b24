//! `write`: writes file sets as images.
pub mod failed;
pub mod run;
pub mod words;
